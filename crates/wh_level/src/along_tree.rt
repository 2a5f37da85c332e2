//! Paths along a tree that is told by the parents of its vertices.
ghost use Rattle.std.specs.Prelude.{◌≡◌, ◌<◌, length, Some, slice_get, IfOk};
ghost use Rattle.wh_level.specs.Trees.{IsRooted, path_to};

use std::alloc::Global;
use wh_moves::Move;
use wh_words::OutOfMemory;

/// The parent of the vertex at a place.
fn parent_at(parents: &[Option<(usize, Move)>], place: usize) -> Option<(usize, Move)>
    requires { place < length parents.now }
    ensures { slice_get parents.now place ≡ Some result }
{
    parents[place]
}

/// The moves of the path of a tree from its root to the vertex at a place: those that lead back along the parents, in turn
/// round. From each place the parents lead back to a place without a parent. It answers an error where memory runs out.
#[tactic(auto, using(crate::proofs::Paths::way_start, crate::proofs::Paths::way_step))]
pub fn tree_path(
    alloc: Global,
    parents: &[Option<(usize, Move)>],
    place: usize,
) -> Result<Vec<Move>, OutOfMemory>
    requires rooted { IsRooted parents.now }
    requires within { place < length parents.now }
    ensures { IfOk result (λ v. v.items ≡ path_to parents.now place) }
{
    let mut moves = Vec::new(alloc);
    let mut here = place;
    'back: while let Some((parent, m)) = parent_at(parents, here) {
        moves.push(m)?;
        here = parent;
    }
    moves.reverse();
    Ok(moves)
}
