//! Whether a table is a flow on a network.
ghost use Rattle.std.specs.Prelude.{◌≡◌, ◌≢◌, ℕ, ◌<◌, ◌↔◌, true, IsTrue};
ghost use Rattle.wh_words.specs.Flows.{IsWithin, IsFlow, outflow, inflow};
ghost use Rattle.wh_flow.specs.Tables.{cell};

use crate::flow::{Flow, sum_in, sum_out};
use crate::net::Net;
use crate::table::Table;
use wh_words::Letter;

/// Whether a table of any numbers is a flow from `s` to `t`: no number is above the capacity, and as much flows out of
/// each other letter as into it (Ford and Fulkerson).
pub fn check_flow(net: &Net, s: Letter, t: Letter, flow: &Flow) -> bool
    ensures { IsTrue result ↔ IsFlow (cell net.now.cells) (cell flow.now) s t }
{
    is_within(net.cells(), &flow.table)
        && is_conserved(&flow.table, s.index() as usize, t.index() as usize)
}

/// Whether no number is above the capacity.
fn is_within(cap: &Table, flow: &Table) -> bool
    ensures { IsTrue result ↔ IsWithin (cell cap.now) (cell flow.now) }
{
    for x in 0..52 {
        for y in 0..52 {
            if cap.get(x, y) < flow.get(x, y) {
                return false;
            }
        }
    }
    true
}

/// Whether as much flows out of each letter as into it, but for `s` and `t`.
fn is_conserved(flow: &Table, s: usize, t: usize) -> bool
    ensures { IsTrue result ↔ ((x : ℕ) → x < 52 → x ≢ s → x ≢ t → outflow (cell flow.now) x ≡ inflow (cell flow.now) x) }
{
    for x in 0..52 {
        if x != s && x != t && sum_out(flow, x) != sum_in(flow, x) {
            return false;
        }
    }
    true
}
