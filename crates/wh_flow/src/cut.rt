//! What residual edges lead to, and the least cut.
ghost use Rattle.std.specs.Prelude.{◌≡◌, ◌≢◌, ℕ, ◌*◌, ◌^◌, ◌<◌, ◌≤◌, true, false};
ghost use Rattle.std.specs.Int.{bit_at};
ghost use Rattle.wh_words.specs.LetterSets.{in_set};
ghost use Rattle.wh_words.specs.Flows.{IsWithin, IsFlow, IsMaximum, IsLeastCut, IsReach};
ghost use Rattle.wh_flow.specs.Tables.{IsTable, cell};
ghost use Rattle.wh_flow.specs.Searches.{IsOfLetters, Grew, IsSearched, IsLed};

use crate::flow::Flow;
use crate::net::Net;
use crate::residual::successors_of;
use crate::search::first_fresh;
use crate::table::Table;
use wh_words::{Letter, LetterSet};

/// The letters that residual edges lead to from a letter of the rank: the least closed set that holds it (Picard and
/// Queyranne 1980). The table is within the capacities.
pub fn reach(net: &Net, flow: &Flow, v: Letter) -> LetterSet
    requires of_rank { v < 2 * net.now.rank }
    requires within { IsWithin (cell net.now.cells) (cell flow.now) }
    ensures reach { IsReach (cell net.now.cells) (cell flow.now) v (in_set result) }
    ensures of_rank { result < 2 ^ (2 * net.now.rank) }
{
    reached(net.cells(), &flow.table, net.letters(), v.index() as usize)
}

/// The least cut between two letters of the rank: the minimum cut that lies in each minimum cut. The flow is one of
/// greatest value.
pub fn least_cut(net: &Net, flow: &Flow, s: Letter, t: Letter) -> LetterSet
    requires apart { s ≢ t }
    requires of_rank { s < 2 * net.now.rank }
    requires flow { IsFlow (cell net.now.cells) (cell flow.now) s t }
    requires maximum { IsMaximum (cell net.now.cells) (cell flow.now) s t }
    ensures cut { IsLeastCut (cell net.now.cells) s t (in_set result) }
    ensures of_rank { result < 2 ^ (2 * net.now.rank) }
{
    // The index is below 52, which the proof takes from this call.
    t.index();
    reached(net.cells(), &flow.table, net.letters(), s.index() as usize)
}

/// The letters that residual edges lead to from `v`.
fn reached(cap: &Table, flow: &Table, letters: usize, v: usize) -> LetterSet
    requires table { IsTable flow.now }
    requires letters { letters ≤ 52 }
    requires v_within { v < letters }
    requires within { IsWithin (cell cap.now) (cell flow.now) }
    requires of_letters { IsOfLetters letters cap.now }
    ensures reach { IsReach (cell cap.now) (cell flow.now) v (in_set result) }
    ensures cut { (t : ℕ) → t < 52 → v ≢ t → IsFlow (cell cap.now) (cell flow.now) v t → IsMaximum (cell cap.now) (cell flow.now) v t → IsLeastCut (cell cap.now) v t (in_set result) }
    ensures of_letters { result < 2 ^ letters }
{
    let mut seen = LetterSet::empty();
    visit(cap, flow, &mut seen, v);
    seen
}

/// Adds the letters that residual edges lead to from `v`.
fn visit(cap: &Table, flow: &Table, seen: &mut LetterSet, v: usize)
    requires table { IsTable flow.now }
    requires v_within { v < 52 }
    requires fresh { in_set seen.old v ≡ false }
    requires within { IsWithin (cell cap.now) (cell flow.now) }
    ensures grew { Grew seen.old seen.new }
    ensures searched { IsSearched cap.now flow.now seen.old seen.new 0 v 52 }
    ensures led { (x : ℕ) → x < 52 → in_set seen.old x ≡ false → in_set seen.new x ≡ true → IsLed cap.now flow.now seen.old v x }
    ensures past { (x : ℕ) → 52 ≤ x → in_set seen.new x ≡ in_set seen.old x }
{
    let successors = successors_of(cap, flow, v);
    *seen = seen.with(Letter::of_index(v as u8));
    while let Some(y) = first_fresh(successors, *seen) {
        visit(cap, flow, seen, y);
    }
}
