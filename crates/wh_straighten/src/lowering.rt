//! A way round a peak.
ghost use Rattle.std.specs.Prelude.{◌≡◌, ◌+◌, ◌*◌, ◌≤◌, length, IfOk};
ghost use Rattle.wh_words.specs.Moves.{IsCut};
ghost use Rattle.wh_words.specs.Moves as spec;
ghost use Rattle.wh_composites.specs.SignedPerms.{IsTurn};
ghost use Rattle.wh_peak.specs.Straightness.{IsLowered, IsPeak};

use crate::any_cuts::lower_cuts;
use crate::making::two_moves;
use crate::moved_cuts::moved_cut;
use std::alloc::Global;
use wh_moves::{Kind, Move};
use wh_words::{Letter, LetterSet, OutOfMemory, Tuple};

/// From the tuple after a cut to that after another move, round a peak.
fn lower_from_cut(
    alloc: Global,
    top: &Tuple,
    left_mult: Letter,
    left_set: LetterSet,
    right: &Move,
) -> Result<Vec<Move>, OutOfMemory>
    requires cut { IsCut top.now.plain.rank left_mult left_set }
    requires rank { right.now.rank ≡ top.now.plain.rank }
    requires peak { IsPeak top.now.plain (spec.cut_move top.now.plain.rank left_mult left_set) right.now }
    ensures lowered { IfOk result (λ v. IsLowered top.now.plain (spec.cut_move top.now.plain.rank left_mult left_set) right.now v.items) }
    ensures few { IfOk result (λ v. length v.items ≤ 2 * (top.now.plain.rank * top.now.plain.rank + top.now.plain.rank + 2)) }
{
    // The tuple is one, which the proof takes from this call.
    top.rank();
    match right.kind() {
        Kind::Cut { mult, set } => lower_cuts(alloc, top, left_mult, left_set, mult, set),
        Kind::Swap(_) | Kind::Invert(_) => {
            two_moves(
                alloc,
                *right,
                moved_cut(right, left_mult, left_set).inverse(),
            )
        }
    }
}

/// From the tuple after a swap or an inversion to that after a cut, round a peak.
fn lower_from_turn(
    alloc: Global,
    top: &Tuple,
    left: &Move,
    right: &Move,
) -> Result<Vec<Move>, OutOfMemory>
    requires turn { IsTurn top.now.plain.rank left.now.kind }
    requires left_rank { left.now.rank ≡ top.now.plain.rank }
    requires rank { right.now.rank ≡ top.now.plain.rank }
    requires peak { IsPeak top.now.plain left.now right.now }
    ensures lowered { IfOk result (λ v. IsLowered top.now.plain left.now right.now v.items) }
    ensures few { IfOk result (λ v. length v.items ≤ 2 * (top.now.plain.rank * top.now.plain.rank + top.now.plain.rank + 2)) }
{
    // The tuple is one, which the proof takes from this call.
    top.rank();
    match right.kind() {
        Kind::Cut { mult, set } => two_moves(alloc, moved_cut(left, mult, set), *left),
        // Swaps and inversions keep the length, so that no two of them make a peak.
        Kind::Swap(_) | Kind::Invert(_) => Ok(Vec::new(alloc)),
    }
}

/// A way round a peak: a list of moves that leads from the tuple after `left` to that after `right`, where neither move
/// lengthens the tuple at the top, and one of them shortens it. Every tuple strictly between is shorter than the top,
/// and the list is the same automorphism as the inverse of `left` and then `right`, up to a conjugation (Higgins and
/// Lyndon 1974; Lyndon and Schupp, I.4). For rank n it has at most 2 (n n + n + 2) moves. It takes memory for lists of
/// moves alone.
pub fn lower(
    alloc: Global,
    top: &Tuple,
    left: &Move,
    right: &Move,
) -> Result<Vec<Move>, OutOfMemory>
    requires left_rank { left.now.rank ≡ top.now.plain.rank }
    requires right_rank { right.now.rank ≡ top.now.plain.rank }
    requires peak { IsPeak top.now.plain left.now right.now }
    ensures lowered { IfOk result (λ v. IsLowered top.now.plain left.now right.now v.items) }
    ensures few { IfOk result (λ v. length v.items ≤ 2 * (top.now.plain.rank * top.now.plain.rank + top.now.plain.rank + 2)) }
{
    match left.kind() {
        Kind::Cut { mult, set } => lower_from_cut(alloc, top, mult, set, right),
        Kind::Swap(_) | Kind::Invert(_) => lower_from_turn(alloc, top, left, right),
    }
}
