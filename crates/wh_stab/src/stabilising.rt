//! The stabiliser of a tuple.
ghost use Rattle.std.specs.Prelude.{◌≡◌, ◌<◌, ◌≤◌, length, map, MatchOption, IfOk};
ghost use Rattle.wh_words.specs.Limits.{most_level_edges, most_relators, most_stabiliser_rank};
ghost use Rattle.wh_words.specs.Tuples.{IsTuple};
ghost use Rattle.wh_words.specs.CapacityTraces.{IsCapacityTrace};
ghost use Rattle.wh_level.specs.Trees.{IsClosedLevel};
ghost use Rattle.wh_level.specs.LevelEdges.{AreEdges};
ghost use Rattle.wh_stab.specs.Relators.{relator_count};
ghost use Rattle.wh_stab.specs.Stabilisers.{IsStabiliser, Stabilises};

use crate::generators::push_generators;
use crate::relators::push_relators;
use crate::stab::{Stab, Stabilised};
use std::alloc::Global;
use wh_level::{Edge, Level, Tree, few_edges};
use wh_reduce::Trace;
use wh_words::{List, MOST_LEVEL_EDGES, OutOfMemory, Tuple};

/// Copies of tuples.
fn copies(alloc: Global, tuples: &[Tuple]) -> Result<Vec<Tuple>, OutOfMemory>
    ensures { IfOk result (λ v. map (λ t. t.plain) v.items ≡ map (λ t. t.plain) tuples.now) }
{
    let mut copies = Vec::new(alloc);
    for tuple in tuples {
        copies.push(tuple.copy(alloc)?)?;
    }
    Ok(copies)
}

/// The stabiliser of a tuple with this trace, by the level of the end of the trace, which has these edges. None comes exactly
/// where the level has more than MOST_RELATORS relators.
fn presented(
    alloc: Global,
    tuple: &Tuple,
    trace: &Trace,
    level: &Level,
    edges: &[Edge],
) -> Result<Option<Stab>, OutOfMemory>
    requires tuple { IsTuple tuple.now.plain }
    requires rank { tuple.now.plain.rank ≤ most_stabiliser_rank }
    requires trace { IsCapacityTrace tuple.now.plain trace.now.moves trace.now.end.plain }
    requires root { level.now.root ≡ trace.now.end.plain }
    requires edges { AreEdges level.now edges.now }
    requires few { length edges.now ≤ most_level_edges }
    ensures { IfOk result (λ o. MatchOption o (most_relators < relator_count level.now.tuples) (λ s. IsStabiliser tuple.now.plain level.now s × (relator_count level.now.tuples ≤ most_relators))) }
{
    let vertices = copies(alloc, level.tuples())?;
    let mut generators = Vec::new(alloc);
    push_generators(&mut generators, level, edges)?;
    let mut relators = Vec::new(alloc);
    let few = push_relators(alloc, &mut relators, level, edges, &generators)?;
    if !few {
        return Ok(None);
    }
    let moves = Vec::from_slice(alloc, trace.moves.items())?;
    let parents = Vec::from_slice(alloc, level.parents())?;
    Ok(Some(Stab {
        trace: List::of(moves),
        vertices: List::of(vertices),
        tree: Tree {
            parent: List::of(parents),
        },
        generators: List::of(generators),
        relators: List::of(relators),
    }))
}

/// Generators and relators of the automorphisms that fix a tuple of rank MOST_STABILISER_RANK at most (McCool 1975), by
/// its trace and the level of the end of that. The generators are the edges of the level off the tree of first walks, in
/// the order of edges; the relators are, for each tuple of the level in order, the instances of the nine families, each
/// with the numbers of the generators on its way. `Edges` comes exactly where the level has more than MOST_LEVEL_EDGES
/// edges, and `Relators` exactly where it has at most as many, and more than MOST_RELATORS relators. It answers an error
/// where memory runs out.
pub fn stabiliser(
    alloc: Global,
    tuple: &Tuple,
    trace: &Trace,
    level: &Level,
) -> Result<Stabilised, OutOfMemory>
    requires tuple { IsTuple tuple.now.plain }
    requires rank { tuple.now.plain.rank ≤ most_stabiliser_rank }
    requires trace { IsCapacityTrace tuple.now.plain trace.now.moves trace.now.end.plain }
    requires root { level.now.root ≡ trace.now.end.plain }
    ensures { IfOk result (Stabilises tuple.now.plain level.now) }
{
    let Some(edges) = few_edges(alloc, level, MOST_LEVEL_EDGES)? else {
        return Ok(Stabilised::Edges);
    };
    match presented(alloc, tuple, trace, level, &edges)? {
        Some(stab) => Ok(Stabilised::Done(stab)),
        None => Ok(Stabilised::Relators),
    }
}
