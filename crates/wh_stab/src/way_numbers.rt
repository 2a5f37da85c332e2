//! The numbers of the generators on a way through a level.
ghost use Rattle.std.specs.Prelude.{◌≡◌, ◌≤◌, [], length, slice_get, Some, IfOk, OnOk};
ghost use Rattle.wh_words.specs.Limits.{most_level_edges};
ghost use Rattle.wh_words.specs.Tuples.{TupleData};
ghost use Rattle.wh_level.specs.Trees.{IsClosedLevel};
ghost use Rattle.wh_level.specs.LevelEdges.{IsEdge, AreEdges};
ghost use Rattle.wh_stab.specs.Presentations.{AreGenerators, AreNumbers};
ghost use Rattle.wh_stab.specs.Numberings.{IsWayFrom, AddsNumber, presentation};

use crate::generators::{generator_place, is_of_tree};
use std::alloc::Global;
use wh_level::{Edge, Level, edge_number};
use wh_moves::Move;
use wh_words::OutOfMemory;

/// Adds the number of an edge, unless it is one of the tree. Numbers count from 1.
fn push_number(
    word: &mut Vec<u32>,
    level: &Level,
    generators: &[(usize, Move)],
    edge: &Edge,
) -> Result<(), OutOfMemory>
    requires closed { IsClosedLevel level.now }
    requires edge { IsEdge level.now edge.now }
    requires generators { AreGenerators (presentation [] level.now generators.now) }
    requires few { length generators.now ≤ most_level_edges }
    ensures { OnOk result (AddsNumber level.now generators.now edge.now word.old.items word.new.items) }
{
    if is_of_tree(level, edge) {
        return Ok(());
    }
    let place = generator_place(generators, edge.from, &edge.via).unwrap();
    word.push(place as u32 + 1)?;
    Ok(())
}

/// Adds the numbers of the edges on the way of some moves from the tuple at a place, where edges of the tree are left out.
fn push_numbers(
    word: &mut Vec<u32>,
    level: &Level,
    edges: &[Edge],
    generators: &[(usize, Move)],
    start: usize,
    moves: &[Move],
) -> Result<(), OutOfMemory>
    requires closed { IsClosedLevel level.now }
    requires edges { AreEdges level.now edges.now }
    requires generators { AreGenerators (presentation [] level.now generators.now) }
    requires few { length generators.now ≤ most_level_edges }
    requires way { IsWayFrom level.now start moves.now }
    requires none { word.old.items ≡ [] }
    ensures { (t : TupleData) → slice_get level.now.tuples start ≡ Some t → OnOk result (AreNumbers (presentation [] level.now generators.now) t moves.now word.new.items) }
{
    let mut here = start;
    for m in moves {
        let edge = edges[edge_number(edges, here, m).unwrap()];
        push_number(word, level, generators, &edge)?;
        here = edge.to;
    }
    Ok(())
}

/// The numbers of the edges on the way of some moves from the tuple at a place.
pub(crate) fn numbers_on(
    alloc: Global,
    level: &Level,
    edges: &[Edge],
    generators: &[(usize, Move)],
    start: usize,
    moves: &[Move],
) -> Result<Vec<u32>, OutOfMemory>
    requires closed { IsClosedLevel level.now }
    requires edges { AreEdges level.now edges.now }
    requires generators { AreGenerators (presentation [] level.now generators.now) }
    requires few { length generators.now ≤ most_level_edges }
    requires way { IsWayFrom level.now start moves.now }
    ensures { (t : TupleData) → slice_get level.now.tuples start ≡ Some t → IfOk result (λ v. AreNumbers (presentation [] level.now generators.now) t moves.now v.items) }
{
    let mut word = Vec::new(alloc);
    push_numbers(&mut word, level, edges, generators, start, moves)?;
    Ok(word)
}
