//! Flows of greatest value, by rounds that each raise the value (Ford and Fulkerson).
ghost use Rattle.std.specs.Prelude.{◌≡◌, ◌≢◌, ℕ, ◌+◌, ◌*◌, ◌<◌, ◌≤◌, ◌↔◌, cond, length, true, false};
ghost use Rattle.wh_words.specs.Flows.{IsFlow, HasMoreValueThan, IsMaximum, FillsLeastCut, degree};
ghost use Rattle.wh_flow.specs.Tables.{cell};

use crate::flow::Flow;
use crate::net::Net;
use crate::residual::ResidualNet;
use crate::search::Search;
use std::marker::Brand;
use std::sync::ledger::{Blank, Ledger};
use wh_words::{Letter, LetterSet, Steps};

/// Raises the value of a flow between two letters of the rank, at one step. Answers false exactly where the value is the
/// greatest; then the flow and the counter are unchanged.
#[tactic(auto, using(crate::proofs::Reached::more_not_greatest))]
pub fn augment<L: Ledger>(
    net: &Net,
    flow: &mut Flow,
    s: Letter,
    t: Letter,
    steps: &mut Steps<L>,
) -> bool
    requires apart { s ≢ t }
    requires of_rank { s < 2 * net.now.rank }
    requires flow { IsFlow (cell net.now.cells) (cell flow.old) s t }
    ensures flow { IsFlow (cell net.now.cells) (cell flow.new) s t }
    ensures more { result ≡ true → HasMoreValueThan (cell flow.new) (cell flow.old) s }
    ensures maximum { (result ≡ false) ↔ IsMaximum (cell net.now.cells) (cell flow.old) s t }
    ensures done { result ≡ false → (flow.new ≡ flow.old) × FillsLeastCut (cell net.now.cells) (cell flow.old) s t }
    ensures cost { steps.new ≡ steps.old + cond result 1 0 }
{
    let mut residual = ResidualNet::of(net, flow);
    let raised = raise(&mut residual, &mut Search::new(t), s, steps);
    if raised {
        *flow = residual.into_flow();
    }
    raised
}

/// A flow of greatest value between two letters of the rank, by rounds of `augment`. The value is the capacity of the
/// least cut. It takes at most as many steps as there are edges at `s`.
#[tactic(auto, using(crate::proofs::Rounds::out_most, crate::proofs::Rounds::zero_flow, crate::proofs::Rounds::zero_out, crate::proofs::Rounds::zero_in))]
pub fn max_flow<L: Ledger>(net: &Net, s: Letter, t: Letter, steps: &mut Steps<L>) -> Flow
    requires apart { s ≢ t }
    requires of_rank { s < 2 * net.now.rank }
    ensures flow { IsFlow (cell net.now.cells) (cell result) s t }
    ensures maximum { IsMaximum (cell net.now.cells) (cell result) s t }
    ensures cut { FillsLeastCut (cell net.now.cells) (cell result) s t }
    ensures cost { steps.new ≤ steps.old + degree (cell net.now.cells) s }
{
    // The index is below 52, which the proof takes from this call.
    s.index();
    let mut residual = ResidualNet::without_flow(net);
    let mut search = Search::new(t);
    'raise: while raise(&mut residual, &mut search, s, steps) {}
    residual.into_flow()
}

/// `max_flow` for a caller that counts no steps.
pub fn max_flow_uncounted(net: &Net, s: Letter, t: Letter) -> Flow
    requires apart { s ≢ t }
    requires of_rank { s < 2 * net.now.rank }
    ensures flow { IsFlow (cell net.now.cells) (cell result) s t }
    ensures maximum { IsMaximum (cell net.now.cells) (cell result) s t }
    ensures cut { FillsLeastCut (cell net.now.cells) (cell result) s t }
{
    max_flow_over::<Brand>(net, s, t, Blank::new(1))
}

/// `max_flow` with a counter of its own over a blank.
fn max_flow_over<L: Ledger>(net: &Net, s: Letter, t: Letter, blank: Blank) -> Flow
    requires apart { s ≢ t }
    requires of_rank { s < 2 * net.now.rank }
    requires name { blank.name ≡ L.name }
    requires parts { blank.parts ≡ L.parts }
    requires some { 0 < blank.parts }
    ensures flow { IsFlow (cell net.now.cells) (cell result) s t }
    ensures maximum { IsMaximum (cell net.now.cells) (cell result) s t }
    ensures cut { FillsLeastCut (cell net.now.cells) (cell result) s t }
{
    let mut steps: Steps<L> = Steps::new(blank);
    max_flow(net, s, t, &mut steps)
}

/// Raises the value between a letter and the sink of a search at one step, or answers false where it is the greatest.
fn raise<L: Ledger>(
    residual: &mut ResidualNet,
    search: &mut Search,
    s: Letter,
    steps: &mut Steps<L>,
) -> bool
    requires from { residual.old.from ≡ 0 }
    requires apart { s ≢ search.old.sink }
    requires flow { IsFlow (cell residual.old.cap) (cell residual.old.flow) s search.old.sink }
    ensures sink { search.new.sink ≡ search.old.sink }
    ensures cap { residual.new.cap ≡ residual.old.cap }
    ensures from { residual.new.from ≡ 0 }
    ensures flow { IsFlow (cell residual.old.cap) (cell residual.new.flow) s search.old.sink }
    ensures more { result ≡ true → HasMoreValueThan (cell residual.new.flow) (cell residual.old.flow) s }
    ensures same { result ≡ false → residual.new ≡ residual.old }
    ensures cut { result ≡ false → FillsLeastCut (cell residual.old.cap) (cell residual.old.flow) s search.old.sink }
    ensures maximum { result ≡ false → IsMaximum (cell residual.old.cap) (cell residual.old.flow) s search.old.sink }
    ensures cost { steps.new ≡ steps.old + cond result 1 0 }
{
    search.seen = LetterSet::empty();
    let d = search.push(residual, s.index() as usize, u32::MAX);
    if d == 0 {
        return false;
    }
    steps.tick();
    true
}
