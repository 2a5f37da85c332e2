//! Printing of answers.
ghost use Rattle.std.specs.Prelude.{◌≡◌, ◌∷◌, [], ◌++◌, length, IfOk, OnOk, codes, decimal};
ghost use Rattle.wh_lines.specs.Rows.{fields_text, number_row, row_text, rows_text};
ghost use Rattle.wh_fields.specs.TupleFields.{words_row};
ghost use Rattle.wh_fields.specs.MoveFields.{moves_row};
ghost use Rattle.wh_data.specs.AnswerData.{plains, side_of, verdict_of, stab_verdict_of, answer_of};
ghost use Rattle.wh_data.specs.declared.command.Command.TheVariants as commands;
ghost use Rattle.wh_data.specs.AnswerData.VerdictData.{undecided};
ghost use Rattle.wh_data.specs.Commands.{heading_row};
ghost use Rattle.wh_data.specs.AnswerTexts.{side_rows, at_rows, level_rows, bound_fields, verdict_row, verdict_rows, stab_rows, tuple_rows, head_rows, body_rows, answer_text, IsPrintableSide, IsPrintableVerdict, IsPrintableStab, IsPrintable};

use crate::answer::{Answer, Bound, Side, StabVerdict, Verdict};
use crate::command::{Command, answer_version};
use crate::presentation_printer::print_presentation;
use std::alloc::Global;
use wh_fields::{print_flows, print_moves, print_words};
use wh_lines::{print_number, print_number_row};
use wh_moves::Move;
use wh_words::{MOST_LEVEL_EDGES, MOST_RELATORS, OutOfMemory, Tuple};

/// Writes the lines of a side.
#[tactic(auto, using(crate::proofs::PrintedAnswers::side_text))]
fn print_side(out: &mut Vec<u8>, side: &Side) -> Result<(), OutOfMemory>
    requires { IsPrintableSide (side_of side.now) }
    ensures { OnOk result (out.new.items ≡ out.old.items ++ rows_text (side_rows (side_of side.now))) }
{
    print_moves(out, b"trace", side.trace.items())?;
    print_words(out, b"end", &side.end)?;
    print_flows(out, side.end.rank(), side.flows.items())
}

/// Writes the lines of two sides.
#[tactic(auto, using(wh_lines::proofs::PrintedRows::rows_append))]
fn print_sides(out: &mut Vec<u8>, first: &Side, second: &Side) -> Result<(), OutOfMemory>
    requires first { IsPrintableSide (side_of first.now) }
    requires second { IsPrintableSide (side_of second.now) }
    ensures { OnOk result (out.new.items ≡ out.old.items ++ rows_text (side_rows (side_of first.now) ++ side_rows (side_of second.now))) }
{
    print_side(out, first)?;
    print_side(out, second)
}

/// Writes the lines of the tuples of a level.
fn print_tuples(out: &mut Vec<u8>, level: &[Tuple]) -> Result<(), OutOfMemory>
    ensures { OnOk result (out.new.items ≡ out.old.items ++ rows_text (at_rows (plains level.now))) }
{
    for tuple in level {
        print_words(out, b"at", tuple)?;
    }
    Ok(())
}

/// Writes the lines of a level.
#[tactic(auto, using(crate::proofs::PrintedAnswers::level_text))]
fn print_level(out: &mut Vec<u8>, level: &[Tuple]) -> Result<(), OutOfMemory>
    ensures { OnOk result (out.new.items ≡ out.old.items ++ rows_text (level_rows (plains level.now))) }
{
    print_number_row(out, b"level", level.len() as u64)?;
    print_tuples(out, level)
}

/// The name of a bound, and its number.
fn bound_parts(bound: Bound) -> (&'static [u8], u64)
    ensures { bound_fields bound ≡ result.0.now ∷ decimal result.1 ∷ [] }
{
    match bound {
        Bound::Length(length) => (b"length", length as u64),
        Bound::Level(limit) => (b"level", limit as u64),
        Bound::Edges => (b"edges", MOST_LEVEL_EDGES as u64),
        Bound::Relators => (b"relators", MOST_RELATORS as u64),
    }
}

/// Writes the bound that was met, as fields.
fn print_bound(out: &mut Vec<u8>, bound: Bound) -> Result<(), OutOfMemory>
    ensures { OnOk result (out.new.items ≡ out.old.items ++ fields_text (bound_fields bound)) }
{
    let (name, number) = bound_parts(bound);
    out.push(b' ')?;
    out.extend_from_slice(name)?;
    out.push(b' ')?;
    print_number(out, number)
}

/// Writes the fields of an undecided verdict.
fn print_undecided(out: &mut Vec<u8>, bound: Bound) -> Result<(), OutOfMemory>
    ensures { OnOk result (out.new.items ≡ out.old.items ++ codes "verdict undecided" ++ fields_text (bound_fields bound)) }
{
    out.extend_from_slice(b"verdict undecided")?;
    print_bound(out, bound)
}

/// Writes the line of an undecided verdict.
fn print_undecided_row(out: &mut Vec<u8>, bound: Bound) -> Result<(), OutOfMemory>
    ensures { OnOk result (out.new.items ≡ out.old.items ++ row_text (verdict_row (undecided bound))) }
{
    print_undecided(out, bound)?;
    out.push(b'\n')?;
    Ok(())
}

/// Writes the line of a verdict.
fn print_verdict(out: &mut Vec<u8>, verdict: &Verdict) -> Result<(), OutOfMemory>
    ensures { OnOk result (out.new.items ≡ out.old.items ++ row_text (verdict_row (verdict_of verdict.now))) }
{
    match verdict {
        Verdict::Yes(_) => out.extend_from_slice(b"verdict yes")?,
        Verdict::NoLength(_, _) => out.extend_from_slice(b"verdict no length")?,
        Verdict::NoLevel(_, _, _) => out.extend_from_slice(b"verdict no level")?,
        Verdict::Undecided(bound) => print_undecided(out, *bound)?,
    }
    out.push(b'\n')?;
    Ok(())
}

/// Writes the lines after that of a verdict.
#[tactic(auto, using(wh_lines::proofs::PrintedRows::rows_append))]
fn print_after_verdict(out: &mut Vec<u8>, verdict: &Verdict) -> Result<(), OutOfMemory>
    requires { IsPrintableVerdict (verdict_of verdict.now) }
    ensures { OnOk result (out.new.items ≡ out.old.items ++ rows_text (verdict_rows (verdict_of verdict.now))) }
{
    match verdict {
        Verdict::Yes(moves) => print_moves(out, b"moves", moves.items()),
        Verdict::NoLength(first, second) => print_sides(out, first, second),
        Verdict::NoLevel(first, second, level) => {
            print_sides(out, first, second)?;
            print_level(out, level.items())
        }
        Verdict::Undecided(_) => Ok(()),
    }
}

/// Writes the lines of a side, a level and what presents a stabiliser, or that of the bound that was met.
fn print_stabiliser(out: &mut Vec<u8>, verdict: &StabVerdict) -> Result<(), OutOfMemory>
    requires { IsPrintableStab (stab_verdict_of verdict.now) }
    ensures { OnOk result (out.new.items ≡ out.old.items ++ rows_text (stab_rows (stab_verdict_of verdict.now))) }
{
    match verdict {
        StabVerdict::Done(side, parts) => {
            print_side(out, side)?;
            print_level(out, parts.vertices.items())?;
            print_presentation(out, parts)?;
            Ok(())
        }
        StabVerdict::Undecided(bound) => print_undecided_row(out, *bound),
    }
}

/// Writes the heading of the answers of a command.
fn print_heading(out: &mut Vec<u8>, command: Command) -> Result<(), OutOfMemory>
    ensures { OnOk result (out.new.items ≡ out.old.items ++ row_text (heading_row command)) }
{
    out.extend_from_slice(b"whitehead ")?;
    out.extend_from_slice(answer_version())?;
    out.push(b' ')?;
    out.extend_from_slice(command.name())?;
    out.push(b'\n')?;
    Ok(())
}

/// Writes the lines of a heading, a rank and a tuple.
fn print_tuple_head(out: &mut Vec<u8>, command: Command, tuple: &Tuple) -> Result<(), OutOfMemory>
    ensures { OnOk result (out.new.items ≡ out.old.items ++ rows_text (tuple_rows command tuple.now.plain)) }
{
    print_heading(out, command)?;
    print_number_row(out, b"rank", tuple.rank().get() as u64)?;
    print_words(out, b"tuple", tuple)?;
    Ok(())
}

/// Writes the lines of an answer of `decide` before what follows the verdict.
fn print_decided_head(
    out: &mut Vec<u8>,
    first: &Tuple,
    second: &Tuple,
    verdict: &Verdict,
) -> Result<(), OutOfMemory>
    ensures { OnOk result (out.new.items ≡ out.old.items ++ rows_text (heading_row commands.Decide ∷ number_row (codes "rank") first.now.plain.rank ∷ words_row (codes "first") first.now.plain.words ∷ words_row (codes "second") second.now.plain.words ∷ verdict_row (verdict_of verdict.now) ∷ [])) }
{
    print_heading(out, Command::Decide)?;
    print_number_row(out, b"rank", first.rank().get() as u64)?;
    print_words(out, b"first", first)?;
    print_words(out, b"second", second)?;
    print_verdict(out, verdict)?;
    Ok(())
}

/// Writes the lines before the sides.
fn print_head(out: &mut Vec<u8>, answer: &Answer) -> Result<(), OutOfMemory>
    ensures { OnOk result (out.new.items ≡ out.old.items ++ rows_text (head_rows (answer_of answer.now))) }
{
    match answer {
        Answer::Reduce { tuple, .. } => print_tuple_head(out, Command::Reduce, tuple),
        Answer::Straighten { tuple, .. } => print_tuple_head(out, Command::Straighten, tuple),
        Answer::Stabiliser { tuple, .. } => print_tuple_head(out, Command::Stabiliser, tuple),
        Answer::Decide {
            first,
            second,
            verdict,
        } => print_decided_head(out, first, second, verdict),
    }
}

/// Writes the lines of a given list of moves, a straight one, and the tuple that both lead to.
fn print_straightened(
    out: &mut Vec<u8>,
    given: &[Move],
    moves: &[Move],
    end: &Tuple,
) -> Result<(), OutOfMemory>
    ensures { OnOk result (out.new.items ≡ out.old.items ++ rows_text (moves_row (codes "given") given.now ∷ moves_row (codes "moves") moves.now ∷ words_row (codes "end") end.now.plain.words ∷ [])) }
{
    print_moves(out, b"given", given)?;
    print_moves(out, b"moves", moves)?;
    print_words(out, b"end", end)
}

/// Writes the lines between these and the last.
fn print_body(out: &mut Vec<u8>, answer: &Answer) -> Result<(), OutOfMemory>
    requires { IsPrintable (answer_of answer.now) }
    ensures { OnOk result (out.new.items ≡ out.old.items ++ rows_text (body_rows (answer_of answer.now))) }
{
    match answer {
        Answer::Reduce { side, .. } => print_side(out, side),
        Answer::Decide { verdict, .. } => print_after_verdict(out, verdict),
        Answer::Straighten {
            given,
            moves,
            end,
            ..
        } => print_straightened(out, given.items(), moves.items(), end),
        Answer::Stabiliser { verdict, .. } => print_stabiliser(out, verdict),
    }
}

/// The text of an answer: a heading, the rank, the lines of its command, and `done`. Each side has one flow for each
/// generator of the end's rank, whose value from the generator to its inverse is from 0 to 4,294,967,295. The number of a
/// vertex that is named, counted from 1, is below 2 ^ 64. OutOfMemory comes where there is no memory for the text.
#[tactic(auto, using(crate::proofs::PrintedAnswers::whole_text))]
pub fn print_answer(alloc: Global, answer: &Answer) -> Result<Vec<u8>, OutOfMemory>
    requires { IsPrintable (answer_of answer.now) }
    ensures { IfOk result (λ v. v.items ≡ answer_text (answer_of answer.now)) }
{
    let mut out = Vec::new(alloc);
    print_head(&mut out, answer)?;
    print_body(&mut out, answer)?;
    out.extend_from_slice(b"done\n")?;
    Ok(out)
}
