//! Judging a certificate.
ghost use Rattle.std.specs.Prelude.{◌≡◌, ◌↔◌, ◌+◌, ◌*◌, ◌<◌, ◌≤◌, [], ◌∷◌, ◌++◌, length, get_or, Some, IsTrue, IfOk};
ghost use Rattle.std.specs.List.{All};
ghost use Rattle.wh_words.specs.Limits.{most_level_rank};
ghost use Rattle.wh_words.specs.Tuples.{TupleData};
ghost use Rattle.wh_data.specs.AnswerData.{plains, side_of, verdict_of, parts_of, stab_verdict_of, answer_of, certificate_of};
ghost use Rattle.wh_data.specs.AnswerData.StabVerdictData.{done};
ghost use Rattle.wh_data.specs.AnswerData.AnswerData.{stabiliser};
ghost use Rattle.wh_data.specs.Numberings.{IsNumbered, IsSideOfRank, IsVerdictOfRank, IsStabOfRank, IsAnswerOfOneRank, verdict_flows, stab_flows, flow_lines, tree_lines, answer_tree_lines};
ghost use Rattle.wh_data.specs.Numberings as spec;
ghost use Rattle.wh_cert.specs.declared.checked.Rule.TheVariants as rules;
ghost use Rattle.wh_cert.specs.Demands.{Demand, rule_of, IsMet, fit_on_the_way, moves_carry, lengths_differ, lengths_agree, level_asked, trace_asked, flows_asked, side_asked, sides_asked, verdict_asked, stab_asked, asked};
ghost use Rattle.wh_cert.specs.Checks.{Checks};
ghost use Rattle.wh_cert.specs.Judged.{Judges};

use crate::checked::{Checked, Rule};
use crate::levels::judge_level;
use crate::presentation::judge_parts;
use crate::sides::{carried, judge_flows, judge_trace};
use crate::stop::{Stop, ask};
use std::alloc::Global;
use wh_data::{Answer, Numbered, Parts, Side, StabVerdict, Verdict};
use wh_moves::Move;
use wh_words::{Letter, OutOfMemory, Rank, Tuple};

/// How many lines a side of a rank has.
fn side_lines(rank: Rank) -> usize
    ensures same { result ≡ spec.side_lines rank }
    ensures few { result ≤ 28 }
{
    rank.get() as usize + 2
}

/// Judges the `moves` line, which is at a place.
fn judge_moves(
    alloc: Global,
    place: usize,
    first: &Tuple,
    second: &Tuple,
    moves: &[Move],
) -> Result<(), Stop>
    requires { All (λ m. m.rank ≡ first.now.plain.rank) moves.now }
    ensures { Judges ((place, fit_on_the_way first.now.plain moves.now) ∷ (place, moves_carry first.now.plain moves.now second.now.plain) ∷ []) result }
{
    let Some(end) = carried(alloc, first, moves)? else {
        return Err(Stop::Broken {
            place,
            rule: Rule::Long,
        });
    };
    ask(place, Rule::Moves, end.same(second))
}

/// Judges the lines of a tuple's side, of which the first is at a place.
fn judge_side(
    alloc: Global,
    place: usize,
    heads: &[(Letter, u32)],
    tuple: &Tuple,
    side: &Side,
) -> Result<(), Stop>
    requires side { IsSideOfRank tuple.now.plain.rank (side_of side.now) }
    requires heads { tuple.now.plain.rank ≤ length heads.now }
    requires low { place ≤ 500 }
    ensures { Judges (side_asked place heads.now tuple.now.plain (side_of side.now)) result }
{
    judge_trace(alloc, place, tuple, side)?;
    judge_flows(place + 2, 0, heads, side)
}

/// Judges the lines of the second tuple's side, of which the first is at a place, where `met` tells whether what is asked
/// of the lengths of the two ends is so.
fn judge_second(
    alloc: Global,
    place: usize,
    heads: &[(Letter, u32)],
    tuple: &Tuple,
    side: &Side,
    met: bool,
) -> Result<(), Stop>
    requires side { IsSideOfRank tuple.now.plain.rank (side_of side.now) }
    requires heads { 2 * tuple.now.plain.rank ≤ length heads.now }
    requires low { place ≤ 500 }
    ensures { (lengths : Demand) → rules.Length ≡ rule_of lengths → (IsTrue met ↔ IsMet lengths) → Judges (trace_asked place tuple.now.plain (side_of side.now) ++ ((place + 1, lengths) ∷ flows_asked (place + 2) tuple.now.plain.rank heads.now (side_of side.now))) result }
{
    judge_trace(alloc, place, tuple, side)?;
    ask(place + 1, Rule::Length, met)?;
    judge_flows(place + 2, tuple.rank().get() as usize, heads, side)
}

/// Judges the lines of two sides, of which the first is at a place, where `met` tells whether what is asked of the
/// lengths of the two ends is so.
fn judge_sides(
    alloc: Global,
    place: usize,
    heads: &[(Letter, u32)],
    first: &Tuple,
    second: &Tuple,
    a: &Side,
    b: &Side,
    met: bool,
) -> Result<(), Stop>
    requires low { place ≤ 5 }
    requires one_rank { second.now.plain.rank ≡ first.now.plain.rank }
    requires a { IsSideOfRank first.now.plain.rank (side_of a.now) }
    requires b { IsSideOfRank first.now.plain.rank (side_of b.now) }
    requires heads { 2 * first.now.plain.rank ≤ length heads.now }
    ensures { (lengths : TupleData → TupleData → Demand) → rules.Length ≡ rule_of (lengths a.now.end.plain b.now.end.plain) → (IsTrue met ↔ IsMet (lengths a.now.end.plain b.now.end.plain)) → Judges (sides_asked place first.now.plain.rank heads.now first.now.plain second.now.plain (side_of a.now) (side_of b.now) lengths) result }
{
    judge_side(alloc, place, heads, first, a)?;
    judge_second(
        alloc,
        place + side_lines(first.rank()),
        heads,
        second,
        b,
        met,
    )
}

/// Judges the sides of a no where the ends have different lengths, from a place on.
fn judge_no_length(
    alloc: Global,
    place: usize,
    heads: &[(Letter, u32)],
    first: &Tuple,
    second: &Tuple,
    a: &Side,
    b: &Side,
) -> Result<(), Stop>
    requires low { place ≤ 5 }
    requires one_rank { second.now.plain.rank ≡ first.now.plain.rank }
    requires a { IsSideOfRank first.now.plain.rank (side_of a.now) }
    requires b { IsSideOfRank first.now.plain.rank (side_of b.now) }
    requires heads { 2 * first.now.plain.rank ≤ length heads.now }
    ensures { Judges (sides_asked place first.now.plain.rank heads.now first.now.plain second.now.plain (side_of a.now) (side_of b.now) lengths_differ) result }
{
    let met = a.end.length() != b.end.length();
    judge_sides(alloc, place, heads, first, second, a, b, met)
}

/// Judges the sides and the level of a no, from a place on.
fn judge_no_level(
    alloc: Global,
    place: usize,
    heads: &[(Letter, u32)],
    first: &Tuple,
    second: &Tuple,
    a: &Side,
    b: &Side,
    tuples: &[Tuple],
) -> Result<(), Stop>
    requires low { place ≤ 5 }
    requires one_rank { second.now.plain.rank ≡ first.now.plain.rank }
    requires a { IsSideOfRank first.now.plain.rank (side_of a.now) }
    requires b { IsSideOfRank first.now.plain.rank (side_of b.now) }
    requires heads { 2 * first.now.plain.rank ≤ length heads.now }
    requires ranks { All (λ t. t.plain.rank ≤ most_level_rank) tuples.now }
    ensures { Judges (sides_asked place first.now.plain.rank heads.now first.now.plain second.now.plain (side_of a.now) (side_of b.now) lengths_agree ++ level_asked (place + 2 * spec.side_lines first.now.plain.rank) a.now.end.plain (Some b.now.end.plain) (plains tuples.now)) result }
{
    let met = a.end.length() == b.end.length();
    judge_sides(alloc, place, heads, first, second, a, b, met)?;
    let after = place + 2 * side_lines(first.rank());
    judge_level(alloc, after, &a.end, Some(&b.end), tuples)
}

/// Judges the lines after the verdict on two tuples, of which the first is at a place.
fn judge_verdict(
    alloc: Global,
    place: usize,
    heads: &[(Letter, u32)],
    first: &Tuple,
    second: &Tuple,
    verdict: &Verdict,
) -> Result<(), Stop>
    requires low { place ≤ 5 }
    requires one_rank { second.now.plain.rank ≡ first.now.plain.rank }
    requires verdict { IsVerdictOfRank first.now.plain.rank (verdict_of verdict.now) }
    requires heads { length heads.now ≡ verdict_flows first.now.plain.rank (verdict_of verdict.now) }
    ensures { Judges (verdict_asked place heads.now first.now.plain second.now.plain (verdict_of verdict.now)) result }
{
    match verdict {
        Verdict::Yes(moves) => judge_moves(alloc, place, first, second, moves.items()),
        Verdict::NoLength(a, b) => judge_no_length(alloc, place, heads, first, second, a, b),
        Verdict::NoLevel(a, b, tuples) => {
            judge_no_level(alloc, place, heads, first, second, a, b, tuples.items())
        }
        // No certificate has this verdict.
        Verdict::Undecided(_) => Ok(()),
    }
}

/// Judges the side of a tuple and what presents its stabiliser, from a place on.
fn judge_presented(
    alloc: Global,
    place: usize,
    heads: &[(Letter, u32)],
    tree_heads: &[u32],
    tuple: &Tuple,
    side: &Side,
    parts: &Parts,
) -> Result<(), Stop>
    requires low { place ≤ 5 }
    requires rank { IsStabOfRank tuple.now.plain.rank (done (side_of side.now) (parts_of parts.now)) }
    requires heads { length heads.now ≡ tuple.now.plain.rank }
    requires tree_heads { length tree_heads.now ≡ tree_lines (parts_of parts.now) }
    ensures { Judges (stab_asked place heads.now tree_heads.now tuple.now.plain (done (side_of side.now) (parts_of parts.now))) result }
{
    judge_side(alloc, place, heads, tuple, side)?;
    let after = place + side_lines(tuple.rank());
    judge_parts(alloc, after, tree_heads, &side.end, parts)
}

/// Judges the lines after the tuple whose stabiliser is told, of which the first is at a place.
fn judge_stab(
    alloc: Global,
    place: usize,
    heads: &[(Letter, u32)],
    tree_heads: &[u32],
    tuple: &Tuple,
    verdict: &StabVerdict,
) -> Result<(), Stop>
    requires low { place ≤ 5 }
    requires verdict { IsStabOfRank tuple.now.plain.rank (stab_verdict_of verdict.now) }
    requires heads { length heads.now ≡ flow_lines (stabiliser tuple.now.plain (stab_verdict_of verdict.now)) }
    requires tree_heads { length tree_heads.now ≡ answer_tree_lines (stabiliser tuple.now.plain (stab_verdict_of verdict.now)) }
    ensures { Judges (stab_asked place heads.now tree_heads.now tuple.now.plain (stab_verdict_of verdict.now)) result }
{
    match verdict {
        StabVerdict::Done(side, parts) => {
            judge_presented(alloc, place, heads, tree_heads, tuple, side, parts)
        }
        // No certificate has this verdict.
        StabVerdict::Undecided(_) => Ok(()),
    }
}

/// Judges the lines of an answer whose `flow` lines name these letters and values, and whose `tree` lines name vertices by
/// these numbers.
fn judge_answer(
    alloc: Global,
    heads: &[(Letter, u32)],
    tree_heads: &[u32],
    answer: &Answer,
) -> Result<(), Stop>
    requires answer { IsAnswerOfOneRank (answer_of answer.now) }
    requires heads { length heads.now ≡ flow_lines (answer_of answer.now) }
    requires tree_heads { length tree_heads.now ≡ answer_tree_lines (answer_of answer.now) }
    ensures { Judges (asked heads.now tree_heads.now (answer_of answer.now)) result }
{
    let place = answer.head_lines();
    match answer {
        Answer::Reduce { tuple, side } => judge_side(alloc, place, heads, tuple, side),
        Answer::Decide {
            first,
            second,
            verdict,
        } => judge_verdict(alloc, place, heads, first, second, verdict),
        // No certificate is one of these.
        Answer::Straighten { .. } => Ok(()),
        Answer::Stabiliser { tuple, verdict } => {
            judge_stab(alloc, place, heads, tree_heads, tuple, verdict)
        }
    }
}

/// The number of the line at a place.
fn number_at(lines: &[u32], place: usize) -> u32
    requires { place < length lines.now }
    ensures { result ≡ get_or lines.now place 0 }
{
    lines[place]
}

/// Judges a certificate, that is an answer of `reduce`, `decide` or `stabiliser` that was read from a text, by rules alone:
/// `Valid`, or the first line that breaks a rule with the first rule that it breaks. Every move is made, every flow is
/// tested, and it is tried whether a level move leads out of a level: of every tuple by swaps and an inversion, and by
/// every set of letters of a tuple of each orbit under these at least. The edges off a tree are found anew, each relator
/// is followed through the level, and its moves are composed. Nothing is taken from the search for the answer (Lyndon and
/// Schupp, I.4; Roig, Ventura and Weil 2007; McCool 1975).
pub fn check(alloc: Global, numbered: &Numbered) -> Result<Checked, OutOfMemory>
    requires { IsNumbered (certificate_of numbered.now) }
    ensures { IfOk result (Checks (certificate_of numbered.now)) }
{
    let heads = numbered.flow_heads.items();
    match judge_answer(alloc, heads, numbered.tree_heads.items(), &numbered.answer) {
        Ok(()) => Ok(Checked::Valid),
        Err(Stop::Broken { place, rule }) => Ok(Checked::Invalid {
            line: number_at(numbered.lines.items(), place),
            rule,
        }),
        Err(Stop::OutOfMemory) => Err(OutOfMemory),
    }
}
