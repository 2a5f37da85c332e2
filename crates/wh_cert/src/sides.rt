//! The lines of a side.
ghost use Rattle.std.specs.Prelude.{◌≡◌, ◌↔◌, ◌+◌, ◌*◌, ◌<◌, ◌≤◌, length, IsTrue, IfOk};
ghost use Rattle.std.specs.List.{All};
ghost use Rattle.wh_words.specs.Limits.{most_rank};
ghost use Rattle.wh_words.specs.Tuples.{TupleData, IsTuple};
ghost use Rattle.wh_words.specs.Flows.{HasValue};
ghost use Rattle.wh_flow.specs.Tables.{cell};
ghost use Rattle.wh_graph.specs.Graphs.{IsGraph};
ghost use Rattle.wh_data.specs.AnswerData.{side_of};
ghost use Rattle.wh_data.specs.Numberings.{IsSideOfRank};
ghost use Rattle.wh_cert.specs.Demands.{IsGeneratorFlow, trace_asked, flows_asked};
ghost use Rattle.wh_cert.specs.Judged.{Judges, CarriesTo};

use crate::checked::Rule;
use crate::stop::{Stop, ask};
use std::alloc::Global;
use wh_data::Side;
use wh_flow::{Flow, Net, check_flow};
use wh_graph::{deg, graph};
use wh_moves::{ActError, Move, act_all};
use wh_words::{Letter, OutOfMemory, Tuple};

/// The tuple that moves carry a tuple to. None exactly where a tuple on the way has more than 4,096 letters.
#[tactic(auto, using(crate::proofs::Carried::not_on_the_way))]
pub(crate) fn carried(
    alloc: Global,
    tuple: &Tuple,
    moves: &[Move],
) -> Result<Option<Tuple>, OutOfMemory>
    requires { All (λ m. m.rank ≡ tuple.now.plain.rank) moves.now }
    ensures { IfOk result (CarriesTo tuple.now.plain moves.now) }
{
    match act_all(alloc, tuple, moves) {
        Ok(end) => Ok(Some(end)),
        Err(ActError::TooLong { .. }) => Ok(None),
        Err(ActError::OutOfMemory) => Err(OutOfMemory),
    }
}

/// Judges the `trace` line and the `end` line of a tuple's side, of which the first is at a place.
pub(crate) fn judge_trace(
    alloc: Global,
    place: usize,
    tuple: &Tuple,
    side: &Side,
) -> Result<(), Stop>
    requires side { IsSideOfRank tuple.now.plain.rank (side_of side.now) }
    requires low { place ≤ 1000 }
    ensures { Judges (trace_asked place tuple.now.plain (side_of side.now)) result }
{
    let Some(end) = carried(alloc, tuple, side.trace.items())? else {
        return Err(Stop::Broken {
            place,
            rule: Rule::Long,
        });
    };
    ask(place + 1, Rule::End, end.same(&side.end))
}

/// Whether a flow has a value from a letter.
fn has_value(flow: &Flow, letter: Letter, value: u32) -> bool
    ensures { IsTrue result ↔ HasValue (cell flow.now) letter value }
{
    flow.value(letter) == value as i64
}

/// Whether a line that names a letter and a value tells the flow of generator g, counted from 0: a flow from the letter of
/// the generator to its inverse in a graph, whose value is the degree.
fn is_generator_flow(net: &Net, g: u8, head: (Letter, u32), flow: &Flow) -> bool
    requires g { g < most_rank }
    requires rank { net.now.rank ≤ most_rank }
    ensures { (end : TupleData) → IsTuple end → IsGraph net.now end → IsTrue result ↔ IsGeneratorFlow end g head flow.now }
{
    let (letter, value) = head;
    if letter.index() != 2 * g {
        return false;
    }
    if value != deg(net, letter) {
        return false;
    }
    if !check_flow(net, letter, letter.inverse(), flow) {
        return false;
    }
    has_value(flow, letter, value)
}

/// Judges the `flow` lines of a side, of which the first is at a place, and is number `from` among all `flow` lines.
pub(crate) fn judge_flows(
    place: usize,
    from: usize,
    heads: &[(Letter, u32)],
    side: &Side,
) -> Result<(), Stop>
    requires flows { length side.now.flows ≡ side.now.end.plain.rank }
    requires low { place ≤ 1000 }
    requires heads { from + side.now.end.plain.rank ≤ length heads.now }
    ensures { Judges (flows_asked place from heads.now (side_of side.now)) result }
{
    let net = graph(&side.end);
    for g in 0..side.end.rank().get() {
        let head = heads[from + g as usize];
        let met = is_generator_flow(&net, g, head, &side.flows.items()[g as usize]);
        ask(place + g as usize, Rule::Flow, met)?;
    }
    Ok(())
}
