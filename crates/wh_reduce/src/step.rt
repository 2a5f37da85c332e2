//! The cut that shortens a tuple next.
ghost use Rattle.std.specs.Prelude.{◌≡◌, ◌*◌, ◌<◌, MatchOption};
ghost use Rattle.wh_words.specs.Tuples.{IsRoomed};
ghost use Rattle.wh_words.specs.CapacityTraces.{IsFlatByCapacities, IsCapacityStep};
ghost use Rattle.wh_reduce.specs.FlatNetworks.{IsFlatNetworkAt, IsLeastCutBelow};

use wh_flow::{Net, least_cut, max_flow_uncounted};
use wh_graph::{cap, deg, graph};
use wh_moves::Move;
use wh_words::{Letter, LetterSet, Tuple};

/// The least cut between a letter and its inverse, where its capacity is below the degree of the letter.
fn least_cut_below(net: &Net, letter: Letter) -> Option<LetterSet>
    requires { letter < 2 * net.now.rank }
    ensures { MatchOption result (IsFlatNetworkAt net.now letter) (IsLeastCutBelow net.now letter) }
{
    let degree = deg(net, letter);
    if degree == 0 {
        return None;
    }
    let inverse = letter.inverse();
    let flow = max_flow_uncounted(net, letter, inverse);
    let set = least_cut(net, &flow, letter, inverse);
    if cap(net, set) < degree {
        Some(set)
    } else {
        None
    }
}

/// The step of a tuple: for the first generator that has a cut of a capacity below its degree, the least cut, found by a
/// maximum flow from the generator to its inverse in the Whitehead graph (Roig, Ventura and Weil 2007). None exactly where
/// the tuple is flat. It takes no memory.
pub fn shorten(tuple: &Tuple) -> Option<Move>
    ensures step { MatchOption result (IsFlatByCapacities tuple.now.plain) (IsCapacityStep tuple.now.plain) }
    ensures roomed { IsRoomed tuple.now }
{
    let net = graph(tuple);
    let rank = tuple.rank();
    for generator in 0..rank.get() {
        let letter = Letter::of_index(2 * generator);
        if let Some(set) = least_cut_below(&net, letter) {
            return Move::cut(rank, letter, set);
        }
    }
    None
}
