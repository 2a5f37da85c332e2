//! Capacities of sets and degrees of letters.
ghost use Rattle.std.specs.Prelude.{◌≡◌, ◌*◌, ◌≤◌, not};
ghost use Rattle.wh_words.specs.Limits.{most_letters};
ghost use Rattle.wh_words.specs.LetterSets.{in_set};
ghost use Rattle.wh_words.specs.Flows.{sum_below, where_in, degree, capacity_of_set};
ghost use Rattle.wh_flow.specs.Tables.{cell};

use wh_flow::Net;
use wh_words::{Letter, LetterSet};

/// How many edges lead from a letter out of a set.
fn edges_out(net: &Net, x: Letter, set: LetterSet) -> u32
    ensures value { result ≡ sum_below 52 (λ y. where_in (not (in_set set y)) (cell net.now.cells x y)) }
    ensures few { result ≤ 52 * most_letters }
{
    let mut total = 0;
    for index in 0..2 * net.rank().get() {
        let y = Letter::of_index(index);
        if !set.contains(y) {
            total += net.cap_of(x, y);
        }
    }
    total
}

/// The capacity of a set of letters: how many edges lead out of it (Lyndon and Schupp, I.4). Letters of the set that
/// aren't of the rank have no edges.
pub fn cap(net: &Net, set: LetterSet) -> u32
    ensures { result ≡ capacity_of_set (cell net.now.cells) (in_set set) }
{
    let mut total = 0;
    for index in 0..2 * net.rank().get() {
        let x = Letter::of_index(index);
        if set.contains(x) {
            total += edges_out(net, x, set);
        }
    }
    total
}

/// The degree of a letter: how many edges are at it (Lyndon and Schupp, I.4).
pub fn deg(net: &Net, x: Letter) -> u32
    ensures { result ≡ degree (cell net.now.cells) x }
{
    let mut total = 0;
    for index in 0..2 * net.rank().get() {
        total += net.cap_of(x, Letter::of_index(index));
    }
    total
}
