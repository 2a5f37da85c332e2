//! Rows: a tuple with its level moves.
ghost use Rattle.std.specs.Prelude.{◌≡◌, ◌+◌, ◌≤◌, [], OnOk, IfOk};
ghost use Rattle.wh_words.specs.Limits.{most_level_rank};
ghost use Rattle.wh_words.specs.Tuples.{own_room};
ghost use Rattle.wh_words.specs.Moves.Kind.{swap, invert, cut};
ghost use Rattle.wh_expand.specs.FirstLevelMoves.{AreLevelMovesBefore};
ghost use Rattle.wh_expand.specs.Rows.{AreLevelMoves};

use crate::cuts::push_cuts;
use std::alloc::Global;
use std::sync::ledger::Ledger;
use wh_moves::Move;
use wh_words::{List, OutOfMemory, Steps, Tuple};

/// A tuple and its level moves, in the order of moves.
#[derive(Drop)]
pub struct Row {
    pub tuple: Tuple,
    pub moves: List<Move>,
}

/// Adds all swaps of the rank, by number. They keep the length.
fn push_swaps(moves: &mut Vec<Move>, tuple: &Tuple) -> Result<(), OutOfMemory>
    requires { AreLevelMovesBefore tuple.now.plain (swap 1) moves.old.items }
    ensures { OnOk result (AreLevelMovesBefore tuple.now.plain (invert 1) moves.new.items) }
{
    let rank = tuple.rank();
    for k in 1..rank.get() {
        moves.push(Move::swap(rank, k).unwrap())?;
    }
    Ok(())
}

/// Adds all inversions of the rank, by number. They keep the length.
fn push_inversions(moves: &mut Vec<Move>, tuple: &Tuple) -> Result<(), OutOfMemory>
    requires { AreLevelMovesBefore tuple.now.plain (invert 1) moves.old.items }
    ensures { OnOk result (AreLevelMovesBefore tuple.now.plain (cut 0 0) moves.new.items) }
{
    let rank = tuple.rank();
    for k in 1..rank.get() + 1 {
        moves.push(Move::invert(rank, k).unwrap())?;
    }
    Ok(())
}

/// Adds all level moves of a tuple, in the order of moves.
fn push_level_moves(alloc: Global, moves: &mut Vec<Move>, tuple: &Tuple) -> Result<(), OutOfMemory>
    requires rank { tuple.now.plain.rank ≤ most_level_rank }
    requires none { moves.old.items ≡ [] }
    ensures { OnOk result (AreLevelMoves tuple.now.plain moves.new.items) }
{
    push_swaps(moves, tuple)?;
    push_inversions(moves, tuple)?;
    push_cuts(alloc, moves, tuple)?;
    Ok(())
}

/// The level moves of a tuple of rank MOST_LEVEL_RANK at most, in the order of moves, each once, without a step (Lyndon and
/// Schupp, I.4). It answers an error where memory runs out. They lie in memory of just their size: rows are kept in great
/// numbers, and none in what a longer list leaves over.
pub fn own_level_moves(alloc: Global, tuple: &Tuple) -> Result<Vec<Move>, OutOfMemory>
    requires { tuple.now.plain.rank ≤ most_level_rank }
    ensures { IfOk result (λ v. AreLevelMoves tuple.now.plain v.items) }
{
    let mut moves = Vec::new(alloc);
    push_level_moves(alloc, &mut moves, tuple)?;
    Ok(Vec::from_slice(alloc, &moves)?)
}

/// The level moves of a tuple of rank MOST_LEVEL_RANK at most, in the order of moves: each move of its rank that keeps
/// its length and is no identity cut. It takes one step. The tuple needn't be flat (Lyndon and Schupp, I.4).
pub fn level_moves<L: Ledger>(
    alloc: Global,
    tuple: &Tuple,
    steps: &mut Steps<L>,
) -> Result<Row, OutOfMemory>
    requires { tuple.now.plain.rank ≤ most_level_rank }
    ensures tuple { IfOk result (λ r. r.tuple ≡ own_room tuple.now.plain) }
    ensures moves { IfOk result (λ r. AreLevelMoves tuple.now.plain r.moves) }
    ensures step { steps.new ≡ steps.old + 1 }
{
    steps.tick();
    Ok(Row {
        moves: List::of(own_level_moves(alloc, tuple)?),
        tuple: tuple.copy(alloc)?,
    })
}
