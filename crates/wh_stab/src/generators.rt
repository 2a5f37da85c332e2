//! The generators of a level: its edges off the tree of first walks.
ghost use Rattle.std.specs.Prelude.{◌≡◌, ◌<◌, ◌≤◌, [], length, slice_get, Some, MatchOption, OnOk, Contains};
ghost use Rattle.std.specs.Bool.{MatchBool};
ghost use Rattle.std.specs.List.Sorted.{IsStrictlySortedBy};
ghost use Rattle.std.specs.Ordering.{nat_cmp, ordering_then};
ghost use Rattle.wh_words.specs.Moves.{move_cmp};
ghost use Rattle.wh_level.specs.Trees.{IsClosedLevel};
ghost use Rattle.wh_level.specs.LevelEdges.{AreEdges};
ghost use Rattle.wh_stab.specs.Presentations.{AreGenerators, start_cmp};
ghost use Rattle.wh_stab.specs.Numberings.{IsParentEdge, presentation};

use std::cmp::Ordering;
use wh_level::{Edge, Level};
use wh_moves::Move;
use wh_words::OutOfMemory;

/// Whether an edge is one of the tree of first walks: its start is the parent of its end, by its move.
pub(crate) fn is_of_tree(level: &Level, edge: &Edge) -> bool
    requires { edge.now.to < length level.now.tuples }
    ensures { MatchBool result (IsParentEdge level.now edge.now) (¬ (IsParentEdge level.now edge.now)) }
{
    match level.parent(edge.to) {
        Some((from, via)) => from == edge.from && via == edge.via,
        None => false,
    }
}

/// Adds the starts of the edges of a level that are off the tree, in order.
pub(crate) fn push_generators(
    generators: &mut Vec<(usize, Move)>,
    level: &Level,
    edges: &[Edge],
) -> Result<(), OutOfMemory>
    requires closed { IsClosedLevel level.now }
    requires edges { AreEdges level.now edges.now }
    requires none { generators.old.items ≡ [] }
    ensures generators { OnOk result (AreGenerators (presentation [] level.now generators.new.items)) }
    ensures few { OnOk result (length generators.new.items ≤ length edges.now) }
{
    for edge in edges {
        if !is_of_tree(level, edge) {
            generators.push((edge.from, edge.via))?;
        }
    }
    Ok(())
}

/// How a start stands to another, in the order of edges.
fn start_order(start: &(usize, Move), from: usize, via: &Move) -> Ordering
    ensures { result ≡ ordering_then (nat_cmp start.now.0 from) (move_cmp start.now.1 via.now) }
{
    start.0.cmp(&from).then(start.1.cmp(via))
}

/// The place of a generator among all, counted from 0, by its start. None exactly where there is none.
pub(crate) fn generator_place(
    generators: &[(usize, Move)],
    from: usize,
    via: &Move,
) -> Option<usize>
    requires { IsStrictlySortedBy start_cmp generators.now }
    ensures { MatchOption result (¬ (Contains generators.now (from, via.now))) (λ k. slice_get generators.now k ≡ Some (from, via.now)) }
{
    generators
        .binary_search_by(|start| start_order(start, from, via))
        .ok()
}
