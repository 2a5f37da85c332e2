//! Cuts and lists of moves as the ways round peaks need them.
ghost use Rattle.std.specs.Prelude.{◌≡◌, ◌<◌, ◌≤◌, ◌↔◌, IsTrue, ◌∷◌, [], IfOk};
ghost use Rattle.wh_words.specs.Limits.{most_rank};
ghost use Rattle.wh_words.specs.Tuples.{tuple_length};
ghost use Rattle.wh_words.specs.Moves.{IsCut};
ghost use Rattle.wh_words.specs.Moves as spec;
ghost use Rattle.wh_words.specs.Action.{act};

use std::alloc::Global;
use wh_graph::new_length;
use wh_moves::Move;
use wh_words::{Letter, LetterSet, OutOfMemory, Rank, Tuple};

/// The move of a cut.
pub(crate) fn cut_move(rank: Rank, mult: Letter, set: LetterSet) -> Move
    requires { IsCut rank mult set }
    ensures is { result ≡ spec.cut_move rank mult set }
    ensures low { rank ≤ most_rank }
{
    // The rank is at most 26, which the proof takes from this call.
    rank.get();
    Move::cut(rank, mult, set).unwrap()
}

/// Whether a cut shortens a tuple.
pub(crate) fn shortens(tuple: &Tuple, mult: Letter, set: LetterSet) -> bool
    requires { IsCut tuple.now.plain.rank mult set }
    ensures { IsTrue result ↔ (tuple_length (act tuple.now.plain (spec.cut_move tuple.now.plain.rank mult set)) < tuple_length tuple.now.plain) }
{
    let m = cut_move(tuple.rank(), mult, set);
    new_length(tuple, &m) < tuple.length()
}

/// The list of one move.
pub(crate) fn one_move(alloc: Global, m: Move) -> Result<Vec<Move>, OutOfMemory>
    ensures { IfOk result (λ v. v.items ≡ m ∷ []) }
{
    let mut way = Vec::new(alloc);
    way.push(m)?;
    Ok(way)
}

/// The list of two moves.
pub(crate) fn two_moves(alloc: Global, first: Move, second: Move) -> Result<Vec<Move>, OutOfMemory>
    ensures { IfOk result (λ v. v.items ≡ first ∷ second ∷ []) }
{
    let mut way = Vec::new(alloc);
    way.push(first)?;
    way.push(second)?;
    Ok(way)
}
