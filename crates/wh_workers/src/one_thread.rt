//! Exploring a level on one thread.
ghost use Rattle.std.specs.Prelude.{◌≡◌, ◌+◌, ◌<◌, ◌≤◌, length, slice_get, Some, IfOk, OnOk};
ghost use Rattle.wh_words.specs.Limits.{most_level_rank};
ghost use Rattle.wh_words.specs.Tuples.{TupleData, IsTuple};
ghost use Rattle.wh_level.specs.GrowingLevels.{HasGoneOver, GoesOn};
ghost use Rattle.wh_level.specs.PlacedTuples.{HasRoomsFor, KeepsRooms};
ghost use Rattle.wh_workers.specs.Explorations.{Explores, Expands, CountsTuples, CountsExpanded, IsExpandable};

use crate::explored::Explored;
use std::alloc::Global;
use std::sync::ledger::Ledger;
use wh_expand::level_moves;
use wh_level::GrowingLevel;
use wh_words::{OutOfMemory, Steps, Tuple};

/// Expands the tuple at a place: finds its level moves, and goes over them.
fn expand<L: Ledger>(
    alloc: Global,
    place: usize,
    limit: u32,
    level: &mut GrowingLevel,
    image: &mut Tuple,
    steps: &mut Steps<L>,
) -> Result<(), OutOfMemory>
    requires within { place < length level.old.tuples }
    requires fits { (t : TupleData) → slice_get level.old.tuples place ≡ Some t → IsExpandable image.old t }
    ensures over { OnOk result ((root : TupleData) → HasGoneOver root level.old place → GoesOn root limit level.new (place + 1)) }
    ensures rooms { KeepsRooms image.old image.new }
    ensures step { steps.new ≡ steps.old + 1 }
{
    let row = level_moves(alloc, level.tuple(place), steps)?;
    level.go_over(alloc, place, &row, limit, image)
}

/// Expands all tuples of the level of a root, whose rank is at most MOST_LEVEL_RANK, each once. False comes exactly where
/// the level has more tuples than the limit.
fn expand_all<L: Ledger>(
    alloc: Global,
    root: &Tuple,
    limit: u32,
    level: &mut GrowingLevel,
    image: &mut Tuple,
    steps: &mut Steps<L>,
) -> Result<bool, OutOfMemory>
    requires root { IsTuple root.now.plain }
    requires rank { root.now.plain.rank ≤ most_level_rank }
    requires start { HasGoneOver root.now.plain level.old 0 }
    requires rooms { HasRoomsFor image.old root.now.plain }
    ensures expanded { IfOk result (Expands root.now.plain limit level.new) }
    ensures steps { IfOk result (CountsExpanded steps.old steps.new level.new) }
    ensures counted { steps.old ≤ steps.new }
    ensures bounded { steps.new ≤ steps.old + limit }
{
    let mut place = 0;
    'over: while place < level.len() {
        if level.len() > limit as usize {
            return Ok(false);
        }
        expand(alloc, place, limit, level, image, steps)?;
        place += 1;
    }
    Ok(true)
}

/// The same, in a tuple for images that is made for it.
fn expand_in_room<L: Ledger>(
    alloc: Global,
    root: &Tuple,
    limit: u32,
    level: &mut GrowingLevel,
    steps: &mut Steps<L>,
) -> Result<bool, OutOfMemory>
    requires rank { root.now.plain.rank ≤ most_level_rank }
    requires start { HasGoneOver root.now.plain level.old 0 }
    ensures expanded { IfOk result (Expands root.now.plain limit level.new) }
    ensures steps { IfOk result (CountsExpanded steps.old steps.new level.new) }
    ensures counted { steps.old ≤ steps.new }
    ensures bounded { steps.new ≤ steps.old + limit }
{
    let mut image = Tuple::with_room(alloc, root.rank(), root.count(), root.length() as usize)?;
    expand_all(alloc, root, limit, level, &mut image, steps)
}

/// What exploring the level of a root answers, of which the root alone was found so far.
fn explored_from<L: Ledger>(
    alloc: Global,
    root: &Tuple,
    limit: u32,
    level: &mut GrowingLevel,
    steps: &mut Steps<L>,
) -> Result<Explored, OutOfMemory>
    requires rank { root.now.plain.rank ≤ most_level_rank }
    requires start { HasGoneOver root.now.plain level.old 0 }
    ensures explored { IfOk result (Explores root.now.plain limit) }
    ensures steps { IfOk result (CountsTuples steps.old steps.new) }
    ensures counted { steps.old ≤ steps.new }
    ensures bounded { steps.new ≤ steps.old + limit }
{
    if expand_in_room(alloc, root, limit, level, steps)? {
        Ok(Explored::Closed(level.close(alloc, root)?))
    } else {
        Ok(Explored::Passed)
    }
}

/// The level of a root of rank MOST_LEVEL_RANK at most, or `Passed`, which comes exactly where it has more tuples than
/// the limit. Each tuple is expanded once, so that a level that is answered took one step for each of its tuples;
/// whatever is answered, it took at most as many steps as the limit says (Lyndon and Schupp, I.4).
pub fn explore_one<L: Ledger>(
    alloc: Global,
    root: &Tuple,
    limit: u32,
    steps: &mut Steps<L>,
) -> Result<Explored, OutOfMemory>
    requires { root.now.plain.rank ≤ most_level_rank }
    ensures explored { IfOk result (Explores root.now.plain limit) }
    ensures steps { IfOk result (CountsTuples steps.old steps.new) }
    ensures counted { steps.old ≤ steps.new }
    ensures bounded { steps.new ≤ steps.old + limit }
{
    let mut level = GrowingLevel::start(alloc, root)?;
    explored_from(alloc, root, limit, &mut level, steps)
}
