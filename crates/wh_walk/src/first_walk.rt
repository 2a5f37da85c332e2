//! First walks.
ghost use Rattle.std.specs.Prelude.{MatchOption, IfOk};
ghost use Rattle.wh_words.specs.Levels.{InLevel, IsFirstWalk};

use std::alloc::Global;
use wh_level::{Level, tree_path};
use wh_moves::Move;
use wh_words::{OutOfMemory, Tuple};

/// The first walk from the root of a level to a tuple: of the shortest lists of level moves that lead there the first,
/// compared move by move in the order of moves. None exactly where the tuple isn't in the level. It takes memory for the
/// moves alone.
pub fn walk(alloc: Global, level: &Level, target: &Tuple) -> Result<Option<Vec<Move>>, OutOfMemory>
    ensures { IfOk result (λ o. MatchOption o (¬ (InLevel level.now.root target.now.plain)) (λ v. IsFirstWalk level.now.root target.now.plain v.items)) }
{
    match level.place(target) {
        Some(place) => Ok(Some(tree_path(alloc, level.parents(), place)?)),
        None => Ok(None),
    }
}
