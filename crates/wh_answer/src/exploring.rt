//! Exploring for a caller that counts no steps.
ghost use Rattle.std.specs.Prelude.{◌≡◌, ◌<◌, ◌≤◌, IfOk};
ghost use Rattle.wh_words.specs.Limits.{most_level_rank};
ghost use Rattle.wh_workers.specs.Explorations.{Explores};

use std::alloc::Global;
use std::marker::Brand;
use std::sync::ledger::{Blank, Ledger};
use wh_words::{OutOfMemory, Steps, Tuple};
use wh_workers::{Explored, explore_one};

/// `explore_one` with a counter of its own over a blank.
fn explore_over<L: Ledger>(
    alloc: Global,
    root: &Tuple,
    limit: u32,
    blank: Blank,
) -> Result<Explored, OutOfMemory>
    requires rank { root.now.plain.rank ≤ most_level_rank }
    requires name { blank.name ≡ L.name }
    requires parts { blank.parts ≡ L.parts }
    requires some { 0 < blank.parts }
    ensures { IfOk result (Explores root.now.plain limit) }
{
    let mut steps: Steps<L> = Steps::new(blank);
    explore_one(alloc, root, limit, &mut steps)
}

/// The level of a root of rank MOST_LEVEL_RANK at most, or that it has more tuples than the limit.
pub fn explore(alloc: Global, root: &Tuple, limit: u32) -> Result<Explored, OutOfMemory>
    requires { root.now.plain.rank ≤ most_level_rank }
    ensures { IfOk result (Explores root.now.plain limit) }
{
    explore_over::<Brand>(alloc, root, limit, Blank::new(1))
}
