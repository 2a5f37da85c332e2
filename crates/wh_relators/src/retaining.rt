//! The items of a family that chosen pairs can have.
ghost use Rattle.std.specs.Prelude.{◌≡◌, ◌≤◌, ◌<◌, length, take};
ghost use Rattle.std.specs.List.{All, filter};
ghost use Rattle.wh_relators.specs.Choices.{firsts, seconds, begins, follows, stays};
ghost use Rattle.wh_relators.specs.Measures.{told};
ghost use Rattle.wh_relators.specs.Pairs.{AreRoomy, Is};

use crate::capacities::Capacities;
use crate::cut::Cut;
use crate::family::Family;
use crate::items::{write_firsts, write_seconds};

impl Capacities {
    /// Whether a cut, or its inverse where `back` says so, keeps the length.
    fn stays(&self, back: bool, x: Cut) -> bool
        requires roomy { AreRoomy self.now }
        requires cut { Is self.now.rank x }
        ensures { result ≡ stays (told self.now) back x }
    {
        if back {
            self.keeps_back(x)
        } else {
            self.keeps(x)
        }
    }
}

/// Moves those of the first cuts to the front that, or whose inverses, keep the length.
fn retain(items: &mut [Cut], count: usize, capacities: &Capacities, back: bool) -> usize
    requires roomy { AreRoomy capacities.now }
    requires within { count ≤ length items.old }
    requires cuts { All (Is capacities.now.rank) (take count items.old) }
    ensures written { take result items.new ≡ filter (stays (told capacities.now) back) (take count items.old) }
    ensures end { result ≤ count }
    ensures same_length { length items.new ≡ length items.old }
{
    let mut kept = 0;
    for at in 0..count {
        let x = items[at];
        if capacities.stays(back, x) {
            items[kept] = x;
            kept += 1;
        }
    }
    kept
}

/// Writes what the first of a chosen pair can be: where a list begins with it, it keeps the length.
pub(crate) fn first_items(items: &mut [Cut], capacities: &Capacities, family: Family) -> usize
    requires roomy { AreRoomy capacities.now }
    requires room { 2048 ≤ length items.old }
    ensures written { take result items.new ≡ filter (begins (told capacities.now) family) (firsts capacities.now.rank family) }
    ensures end { result ≤ 2048 }
{
    let count = write_firsts(items, capacities.rank, family);
    match family {
        Family::Unite | Family::Commute => retain(items, count, capacities, false),
        _ => count,
    }
}

/// Writes what the second of a chosen pair can be: where a list has it before a tuple of the length, it keeps the length.
pub(crate) fn second_items(items: &mut [Cut], capacities: &Capacities, family: Family) -> usize
    requires roomy { AreRoomy capacities.now }
    requires room { 2048 ≤ length items.old }
    ensures written { take result items.new ≡ filter (follows (told capacities.now) family) (seconds capacities.now.rank family) }
    ensures end { result ≤ 2048 }
{
    let count = write_seconds(items, capacities.rank, family);
    match family {
        Family::Commute => retain(items, count, capacities, false),
        Family::Conjugate => retain(items, count, capacities, true),
        _ => count,
    }
}
