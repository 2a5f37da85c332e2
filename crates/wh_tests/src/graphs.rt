//! The Whitehead graph, its capacities and flows.
ghost use Rattle.std.specs.Prelude.{IfOk};
ghost use Rattle.wh_words.specs.CapacityTraces.{IsFlatByCapacities};

use crate::support::{are_spelled, cut, letter, tuple};
use std::alloc::Global;
use std::test::Fail;
use wh_flow::{Flow, Net, check_flow, least_cut, least_flow, max_flow_uncounted, reach};
use wh_graph::{cap, deg, graph, new_length};
use wh_reduce::{Trace, flows, reduce, shorten};
use wh_words::{Letter, LetterSet, Tuple};

/// The capacity of the set of a cut by a, the degree of a, the length after the cut, and whether it is the step of a tuple.
fn cut_seen(tuple: &Tuple) -> Result<(u32, u32, u32, bool), Fail> {
    let net = graph(tuple);
    let cut = cut(tuple.rank(), b'a', 9)?;
    let capacity = cap(&net, LetterSet::of_bits(9));
    let degree = deg(&net, letter(b'a')?);
    Ok((
        capacity,
        degree,
        new_length(tuple, &cut),
        shorten(tuple) == Some(cut),
    ))
}

/// The same for the tuple of the one word ab.
fn ab_cut(alloc: Global) -> Result<(u32, u32, u32, bool), Fail> {
    let tuple = tuple(alloc, "rank 2\ntuple ab\n")?;
    cut_seen(&tuple)
}

#[test]
fn a_cut_changes_the_length_by_capacity_less_degree(rt: HostRuntime) -> Result<(), Fail> {
    assert_eq!(rt; ab_cut(rt.alloc())?, (0, 1, 1, true));
    Ok(())
}

/// The graph of the tuple of a problem text.
fn graph_of(alloc: Global, text: &str) -> Result<Net, Fail> {
    let tuple = tuple(alloc, text)?;
    Ok(graph(&tuple))
}

/// Three capacities between the letters of rank 2, and the degree of b.
fn square_seen(net: &Net, a: Letter, b: Letter) -> [u32; 4] {
    [
        net.cap_of(a, b),
        net.cap_of(b.inverse(), a),
        net.cap_of(a, a.inverse()),
        deg(net, b),
    ]
}

/// The same for the graph of a commutator.
fn commutator_square(alloc: Global) -> Result<[u32; 4], Fail> {
    let a = letter(b'a')?;
    let b = letter(b'b')?;
    let net = graph_of(alloc, "rank 2\ntuple abAB\n")?;
    Ok(square_seen(&net, a, b))
}

#[test]
fn the_graph_of_a_commutator_is_a_square(rt: HostRuntime) -> Result<(), Fail> {
    assert_eq!(rt; commutator_square(rt.alloc())?, [1, 1, 0, 2]);
    Ok(())
}

/// Of a maximum flow from a letter to its inverse: whether it is a flow, its value, its least cut and what it reaches; then
/// an entry of the first flow, and the value of that at the inverse.
type FlowSeen = (bool, i64, LetterSet, LetterSet, u32, i64);

/// What is seen of a maximum flow, where its ends differ and are of the rank.
fn flow_seen(net: &Net, a: Letter, b: Letter) -> Option<FlowSeen> {
    let sink = a.inverse();
    if a == sink {
        return None;
    }
    if a.index() >= 2 * net.rank().get() {
        return None;
    }
    let flow = max_flow_uncounted(net, a, sink);
    let first = least_flow(net, &flow, a, sink);
    Some((
        check_flow(net, a, sink, &flow),
        flow.value(a),
        least_cut(net, &flow, a, sink),
        reach(net, &flow, a),
        first.get(a, b),
        first.value(sink),
    ))
}

/// The same for the graph of a commutator.
fn commutator_flow(alloc: Global) -> Result<Option<FlowSeen>, Fail> {
    let a = letter(b'a')?;
    let b = letter(b'b')?;
    let net = graph_of(alloc, "rank 2\ntuple abAB\n")?;
    Ok(flow_seen(&net, a, b))
}

#[test]
fn a_maximum_flow_fills_the_least_cut(rt: HostRuntime) -> Result<(), Fail> {
    let only_a = LetterSet::of_bits(1);
    assert_eq!(rt;
        commutator_flow(rt.alloc())?,
        Some((true, 2, only_a, only_a, 1, -2))
    );
    Ok(())
}

/// Whether nothing, one and two from a letter to its inverse are flows.
fn carried(net: &Net, a: Letter) -> [bool; 3] {
    let mut flow = Flow::zero();
    let nothing = check_flow(net, a, a.inverse(), &flow);
    flow.set(a, a.inverse(), 1);
    let one = check_flow(net, a, a.inverse(), &flow);
    flow.set(a, a.inverse(), 2);
    [nothing, one, check_flow(net, a, a.inverse(), &flow)]
}

/// The same from a, in a graph with one edge from it to its inverse.
fn carried_by_one(alloc: Global) -> Result<[bool; 3], Fail> {
    let a = letter(b'a')?;
    let net = graph_of(alloc, "rank 2\ntuple aab\n")?;
    Ok(carried(&net, a))
}

#[test]
fn more_than_the_edges_carry_is_no_flow(rt: HostRuntime) -> Result<(), Fail> {
    assert_eq!(rt; carried_by_one(rt.alloc())?, [true, true, false]);
    Ok(())
}

/// How many moves a trace has, whether a text spells its end, and how many flows that has.
fn trace_seen(alloc: Global, trace: &Trace, end: &str) -> Result<(usize, bool, usize), Fail>
    requires { IsFlatByCapacities trace.now.end.plain }
{
    let flows = flows(alloc, &trace.end)?;
    Ok((
        trace.moves.items().len(),
        are_spelled(trace.end.letters(), end),
        flows.len(),
    ))
}

/// The trace of the tuple of a problem text.
fn reduced(alloc: Global, text: &str) -> Result<Trace, Fail>
    ensures { IfOk result (λ r. IsFlatByCapacities r.end.plain) }
{
    let tuple = tuple(alloc, text)?;
    Ok(reduce(alloc, &tuple)?)
}

/// What is seen of the trace of the word abcABC.
fn six_letters_reduced(alloc: Global) -> Result<(usize, bool, usize), Fail> {
    let trace = reduced(alloc, "rank 3\ntuple abcABC\n")?;
    trace_seen(alloc, &trace, "bcBC")
}

#[test]
fn a_flow_stands_for_each_generator(rt: HostRuntime) -> Result<(), Fail> {
    assert_eq!(rt; six_letters_reduced(rt.alloc())?, (1, true, 3));
    Ok(())
}
