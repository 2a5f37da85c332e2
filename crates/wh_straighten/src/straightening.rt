//! Straight lists of moves.
ghost use Rattle.std.specs.Prelude.{◌≡◌, ◌+◌, ◌*◌, ◌≤◌, ◌⊎◌, ◌↔◌, length, reverse, IsTrue, IfOk, IfErr, MatchOption};
ghost use Rattle.std.specs.List.{All};
ghost use Rattle.wh_words.specs.Tuples.{IsTuple};
ghost use Rattle.wh_words.specs.Action.{act};
ghost use Rattle.wh_moves.specs.Acts.{Fits, FitsOnTheWay, AreRoomy, IsActAllFault};
ghost use Rattle.wh_peak.specs.Equivalence.{AreMovesOfRank};
ghost use Rattle.wh_peak.specs.Straightness.{IsLowered, IsStraightened};
ghost use Rattle.wh_straighten.specs.Straightening.{IsCorner, TurnsBack, GoesOn};

use crate::lowering::lower;
use std::alloc::Global;
use std::mem;
use wh_moves::{ActError, Move, act_all, act_into, acted_length, roomy_copy};
use wh_words::{OutOfMemory, Rank, Tuple};

/// Makes a tuple the one after a move. The other tuple lends its room.
fn advance(here: &mut Tuple, m: &Move, spare: &mut Tuple)
    requires rank { here.old.plain.rank ≡ m.now.rank }
    requires fits { Fits (act here.old.plain m.now) }
    requires rooms { AreRoomy here.old.plain here.old spare.old }
    ensures acted { here.new.plain ≡ act here.old.plain m.now }
    ensures rooms { AreRoomy here.old.plain here.new spare.new }
{
    act_into(here, m, spare);
    mem::swap(here, spare);
}

/// Whether two moves from a tuple make a corner: they are one, or they make a peak of it.
fn is_corner(top: &Tuple, left: &Move, right: &Move) -> bool
    ensures { IsTrue result ↔ IsCorner top.now.plain left.now right.now }
{
    if left == right {
        return true;
    }
    let height = top.length();
    let after = acted_length(top, right);
    if after > height {
        return false;
    }
    let before = acted_length(top, left);
    before <= height && before + after < 2 * height
}

/// The way back along the last move that is done, where it and the next move make a corner.
fn turned_back(here: &Tuple, done: &[Move], next: &Move) -> Option<Move>
    ensures { MatchOption result (GoesOn here.now.plain done.now next.now) (λ back. TurnsBack here.now.plain done.now next.now back) }
{
    let back = done.last()?.inverse();
    if is_corner(here, &back, next) {
        Some(back)
    } else {
        None
    }
}

/// A way round a corner by shorter tuples.
fn way_round(
    alloc: Global,
    top: &Tuple,
    left: &Move,
    right: &Move,
) -> Result<Vec<Move>, OutOfMemory>
    requires left_rank { left.now.rank ≡ top.now.plain.rank }
    requires right_rank { right.now.rank ≡ top.now.plain.rank }
    requires corner { IsCorner top.now.plain left.now right.now }
    ensures lowered { IfOk result (λ v. IsLowered top.now.plain left.now right.now v.items) }
    ensures few { IfOk result (λ v. length v.items ≤ 2 * (top.now.plain.rank * top.now.plain.rank + top.now.plain.rank + 2)) }
{
    // The move is one, which the proof takes from this call.
    left.rank();
    if left == right {
        Ok(Vec::new(alloc))
    } else {
        lower(alloc, top, left, right)
    }
}

/// Straightens a list of moves that leads from a tuple on, its first move last, and answers the straight list. The first
/// corner is replaced by a way round it as long as there is one.
fn straighten_each(
    alloc: Global,
    here: &mut Tuple,
    spare: &mut Tuple,
    todo: &mut Vec<Move>,
) -> Result<Vec<Move>, OutOfMemory>
    requires tuple { IsTuple here.old.plain }
    requires of_rank { AreMovesOfRank here.old.plain.rank (reverse todo.old.items) }
    requires fits { FitsOnTheWay here.old.plain (reverse todo.old.items) }
    requires rooms { AreRoomy here.old.plain here.old spare.old }
    ensures { IfOk result (λ v. IsStraightened here.old.plain (reverse todo.old.items) v.items) }
{
    let mut done = Vec::new(alloc);
    while let Some(m) = todo.pop() {
        if m.is_identity() {
            continue;
        }
        match turned_back(here, &done, &m) {
            Some(back) => {
                let mut round = way_round(alloc, here, &back, &m)?;
                round.reverse();
                todo.extend_from_slice(&round)?;
                done.pop();
                advance(here, &back, spare);
            }
            None => {
                done.push(m)?;
                advance(here, &m, spare);
            }
        }
    }
    Ok(done)
}

/// The moves of a list, the last one first.
fn reversed(alloc: Global, rank: Rank, list: &[Move]) -> Result<Vec<Move>, OutOfMemory>
    requires { All (λ m. m.rank ≡ rank) list.now }
    ensures reversed { IfOk result (λ v. reverse v.items ≡ list.now) }
    ensures of_rank { IfOk result (λ v. AreMovesOfRank rank (reverse v.items)) }
{
    let mut moves = Vec::new(alloc);
    for m in list {
        // The move is one, which the proof takes from this call.
        m.rank();
        moves.push(*m)?;
    }
    moves.reverse();
    Ok(moves)
}

/// Straightens a list of moves on whose way no tuple is too long.
fn straighten_fitting(alloc: Global, tuple: &Tuple, list: &[Move]) -> Result<Vec<Move>, OutOfMemory>
    requires ranks { All (λ m. m.rank ≡ tuple.now.plain.rank) list.now }
    requires fits { FitsOnTheWay tuple.now.plain list.now }
    ensures { IfOk result (λ v. IsStraightened tuple.now.plain list.now v.items) }
{
    let mut todo = reversed(alloc, tuple.rank(), list)?;
    let mut here = roomy_copy(alloc, tuple)?;
    let mut spare = roomy_copy(alloc, tuple)?;
    straighten_each(alloc, &mut here, &mut spare, &mut todo)
}

/// Why a list of moves can't be straightened: as for `act_all`.
pub type StraightenError = ActError;

/// A straight list of moves in the place of a list of moves of a tuple's rank: it leads to the same tuple, and is the same
/// automorphism up to a conjugation. The lengths on its way fall at each move, then stay, then rise at each move, so that no
/// tuple strictly between is longer than both ends; where no cut shortens either end all have one length (Higgins and
/// Lyndon 1974; Lyndon and Schupp, I.4). No tuple on its way is longer than all on the way of the given list. `TooLong` comes
/// exactly where a tuple on the way of the given list has more than 4,096 letters, as `act_all` answers it. Nothing bounds
/// how many moves there are. It takes memory for two tuples and lists of moves.
pub fn straighten(alloc: Global, tuple: &Tuple, list: &[Move]) -> Result<Vec<Move>, StraightenError>
    requires { All (λ m. m.rank ≡ tuple.now.plain.rank) list.now }
    ensures straightened { IfOk result (λ v. IsStraightened tuple.now.plain list.now v.items) }
    ensures fits { IfOk result (λ _. FitsOnTheWay tuple.now.plain list.now) }
    ensures fault { IfErr result (IsActAllFault tuple.now.plain list.now) }
{
    act_all(alloc, tuple, list)?;
    Ok(straighten_fitting(alloc, tuple, list)?)
}
