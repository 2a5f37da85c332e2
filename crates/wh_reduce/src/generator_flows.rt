//! The flows that show that a tuple is flat.
ghost use Rattle.std.specs.Prelude.{◌≡◌, ◌*◌, ◌<◌, IfOk};
ghost use Rattle.wh_words.specs.Letters.{inverse_letter};
ghost use Rattle.wh_words.specs.Tuples.{IsRoomed};
ghost use Rattle.wh_words.specs.Flows.{IsFirstFlow, HasValue, degree};
ghost use Rattle.wh_words.specs.CapacityTraces.{IsFlatByCapacities};
ghost use Rattle.wh_flow.specs.Tables.{IsTable, cell};
ghost use Rattle.wh_reduce.specs.FlatNetworks.{IsFlatNetworkAt};
ghost use Rattle.wh_reduce.specs.FlowLists.{AreFlows};

use std::alloc::Global;
use wh_flow::{Flow, Net, least_flow, max_flow_uncounted};
use wh_graph::graph;
use wh_words::{Letter, OutOfMemory, Tuple};

/// The first flow, of those with the letter's degree as their value, from a letter to its inverse.
fn flow_of(net: &Net, letter: Letter) -> Flow
    requires index { letter < 52 }
    requires of_rank { letter < 2 * net.now.rank }
    requires flat { IsFlatNetworkAt net.now letter }
    ensures table { IsTable result }
    ensures first { IsFirstFlow (cell net.now.cells) (cell result) letter (inverse_letter letter) }
    ensures value { HasValue (cell result) letter (degree (cell net.now.cells) letter) }
{
    let inverse = letter.inverse();
    let flow = max_flow_uncounted(net, letter, inverse);
    least_flow(net, &flow, letter, inverse)
}

/// For each generator in order, the first flow from it to its inverse in the Whitehead graph of a flat tuple that has the
/// generator's degree as its value. These flows show that no cut shortens the tuple (Roig, Ventura and Weil 2007). It takes
/// memory for the list of flows alone.
pub fn flows(alloc: Global, tuple: &Tuple) -> Result<Vec<Flow>, OutOfMemory>
    requires { IsFlatByCapacities tuple.now.plain }
    ensures flows { IfOk result (λ v. AreFlows tuple.now.plain v.items) }
    ensures roomed { IsRoomed tuple.now }
{
    let net = graph(tuple);
    let rank = tuple.rank().get();
    let mut flows = Vec::with_capacity(alloc, rank as usize)?;
    for generator in 0..rank {
        flows.push(flow_of(&net, Letter::of_index(2 * generator)))?;
    }
    Ok(flows)
}
