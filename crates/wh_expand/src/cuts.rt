//! The cuts that keep the length of a tuple.
ghost use Rattle.std.specs.Prelude.{◌≡◌, ◌+◌, ◌*◌, ◌^◌, ◌<◌, ◌≤◌, false, length, get_or, OnOk};
ghost use Rattle.wh_words.specs.Limits.{most_level_rank};
ghost use Rattle.wh_words.specs.LetterSets.{in_set};
ghost use Rattle.wh_words.specs.Tuples.{IsTuple};
ghost use Rattle.wh_words.specs.Moves.Kind.{cut};
ghost use Rattle.wh_words.specs.Edges.{cap, deg};
ghost use Rattle.wh_graph.specs.CapacityTables.{IsTable, tuple_capacity};
ghost use Rattle.wh_expand.specs.FirstLevelMoves.{AreLevelMovesBefore};
ghost use Rattle.wh_expand.specs.Pieces.{LacksBetween};

use std::alloc::Global;
use wh_graph::{capacity_table, count_sets, deg, graph};
use wh_moves::Move;
use wh_words::{Letter, LetterSet, OutOfMemory, Tuple};

/// Adds the cut with a set whose capacity is the degree of the multiplier, where it is a cut and no identity cut.
fn push_cut(
    moves: &mut Vec<Move>,
    tuple: &Tuple,
    mult: Letter,
    set: LetterSet,
) -> Result<(), OutOfMemory>
    requires rank { tuple.now.plain.rank ≤ most_level_rank }
    requires keeps { cap (in_set set) tuple.now.plain ≡ deg mult tuple.now.plain }
    requires before { AreLevelMovesBefore tuple.now.plain (cut mult set) moves.old.items }
    ensures { OnOk result (AreLevelMovesBefore tuple.now.plain (cut mult (set + 1)) moves.new.items) }
{
    if let Some(m) = Move::cut(tuple.rank(), mult, set) {
        if !m.is_identity() {
            moves.push(m)?;
        }
    }
    Ok(())
}

/// How many sets are looked at at once.
const PIECE: usize = 16;

/// Whether some of these capacities is a degree. All are looked at, so that several are at once.
#[tactic(auto, using(crate::proofs::Pieces::none_so_far, crate::proofs::Pieces::one_more))]
fn has_degree(capacities: &[u32], degree: u32) -> bool
    ensures { result ≡ false → LacksBetween capacities.now degree 0 (length capacities.now) }
{
    let mut found = false;
    for capacity in capacities {
        found |= *capacity == degree;
    }
    found
}

/// The place from which on a degree may stand among the capacities up to `end`: pieces without it are passed over.
fn next_piece(capacities: &[u32], degree: u32, start: usize, end: usize) -> usize
    requires order { start ≤ end }
    requires within { end ≤ length capacities.now }
    ensures order { start ≤ result }
    ensures within { result ≤ end }
    ensures lacks { LacksBetween capacities.now degree start result }
{
    let mut set = start;
    while PIECE <= end - set && !has_degree(&capacities[set..set + PIECE], degree) {
        set += PIECE;
    }
    set
}

/// The first set from one on up to `end` whose capacity is a degree, or `end`.
fn next_set(capacities: &[u32], degree: u32, start: usize, end: usize) -> usize
    requires order { start ≤ end }
    requires within { end ≤ length capacities.now }
    ensures order { start ≤ result }
    ensures within { result ≤ end }
    ensures lacks { LacksBetween capacities.now degree start result }
    ensures found { result < end → get_or capacities.now result 0 ≡ degree }
{
    let mut set = next_piece(capacities, degree, start, end);
    while set < end && capacities[set] != degree {
        set += 1;
    }
    set
}

/// Adds the cuts with a multiplier and with sets from one up to another that keep the length, by set. A cut keeps the
/// length where the capacity of its set is the degree of its multiplier (Lyndon and Schupp, I.4).
fn push_run(
    moves: &mut Vec<Move>,
    tuple: &Tuple,
    mult: Letter,
    degree: u32,
    capacities: &[u32],
    start: usize,
    end: usize,
) -> Result<(), OutOfMemory>
    requires tuple { IsTuple tuple.now.plain }
    requires rank { tuple.now.plain.rank ≤ most_level_rank }
    requires degree { degree ≡ deg mult tuple.now.plain }
    requires capacities { IsTable (tuple_capacity tuple.now.plain) (2 ^ (2 * tuple.now.plain.rank)) capacities.now }
    requires order { start ≤ end }
    requires within { end ≤ 2 ^ (2 * tuple.now.plain.rank) }
    requires before { AreLevelMovesBefore tuple.now.plain (cut mult start) moves.old.items }
    ensures { OnOk result (AreLevelMovesBefore tuple.now.plain (cut mult end) moves.new.items) }
{
    let mut set = next_set(capacities, degree, start, end);
    while set < end {
        push_cut(moves, tuple, mult, LetterSet::of_bits(set as u64))?;
        set = next_set(capacities, degree, set + 1, end);
    }
    Ok(())
}

/// Adds the cuts with one multiplier that keep the length, by set. The sets that hold the multiplier and omit its inverse
/// come in runs of masks one after another, one run in each block of four: a run goes through all sets of the letters
/// before the two.
fn push_cuts_with(
    moves: &mut Vec<Move>,
    tuple: &Tuple,
    mult: Letter,
    degree: u32,
    capacities: &[u32],
) -> Result<(), OutOfMemory>
    requires tuple { IsTuple tuple.now.plain }
    requires rank { tuple.now.plain.rank ≤ most_level_rank }
    requires of_rank { mult < 2 * tuple.now.plain.rank }
    requires degree { degree ≡ deg mult tuple.now.plain }
    requires capacities { IsTable (tuple_capacity tuple.now.plain) (2 ^ (2 * tuple.now.plain.rank)) capacities.now }
    requires before { AreLevelMovesBefore tuple.now.plain (cut mult 0) moves.old.items }
    ensures { OnOk result (AreLevelMovesBefore tuple.now.plain (cut (mult + 1) 0) moves.new.items) }
{
    let first = count_sets(mult.index());
    let run = count_sets(2 * (mult.generator() - 1));
    for block in 0..capacities.len() / (4 * run) {
        let start = 4 * run * block + first;
        push_run(moves, tuple, mult, degree, capacities, start, start + run)?;
    }
    Ok(())
}

/// Adds the cuts of a tuple of rank MOST_LEVEL_RANK at most that keep its length, by multiplier and then by set.
pub(crate) fn push_cuts(
    alloc: Global,
    moves: &mut Vec<Move>,
    tuple: &Tuple,
) -> Result<(), OutOfMemory>
    requires rank { tuple.now.plain.rank ≤ most_level_rank }
    requires before { AreLevelMovesBefore tuple.now.plain (cut 0 0) moves.old.items }
    ensures { OnOk result (AreLevelMovesBefore tuple.now.plain (cut (2 * tuple.now.plain.rank) 0) moves.new.items) }
{
    let net = graph(tuple);
    let capacities = capacity_table(alloc, &net)?;
    for index in 0..2 * tuple.rank().get() {
        let mult = Letter::of_index(index);
        push_cuts_with(moves, tuple, mult, deg(&net, mult), &capacities)?;
    }
    Ok(())
}
