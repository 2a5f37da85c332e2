//! The tree of a level.
ghost use Rattle.std.specs.Prelude.{IfOk};
ghost use Rattle.wh_level.specs.Trees.{AreParents};

use crate::first_walks::Tree;
use crate::level::Level;
use std::alloc::Global;
use wh_words::{List, OutOfMemory};

/// The tree of a level, by which each tuple is reached on its first walk from the root. None stands exactly for the root.
pub fn tree(alloc: Global, level: &Level) -> Result<Tree, OutOfMemory>
    ensures { IfOk result (λ t. AreParents level.now.root level.now.tuples t.parent) }
{
    let parents = level.parents.clone()?;
    Ok(Tree {
        parent: List::of(parents),
    })
}
