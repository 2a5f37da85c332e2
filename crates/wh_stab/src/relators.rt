//! The relators of a level.
ghost use Rattle.std.specs.Prelude.{◌≡◌, ◌<◌, ◌≤◌, [], length, map, IfOk, OnOk};
ghost use Rattle.std.specs.Bool.{MatchBool};
ghost use Rattle.std.specs.List.{All};
ghost use Rattle.wh_words.specs.Limits.{most_level_edges, most_relators, most_stabiliser_rank};
ghost use Rattle.wh_words.specs.Tuples.{IsTuple};
ghost use Rattle.wh_level.specs.Trees.{IsClosedLevel};
ghost use Rattle.wh_level.specs.LevelEdges.{AreEdges};
ghost use Rattle.wh_stab.specs.Presentations.{AreGenerators};
ghost use Rattle.wh_stab.specs.Numberings.{IsWayFrom, presentation};
ghost use Rattle.wh_stab.specs.Relators.{AreRelators, AddsRelators, relator_count, relator_of};

use crate::stab::Relator;
use crate::way_numbers::numbers_on;
use std::alloc::Global;
use wh_level::{Edge, Level};
use wh_moves::Move;
use wh_relators::instances;
use wh_words::{List, MOST_RELATORS, OutOfMemory};

/// Adds relators with these ways from the tuple at a place. It takes the ways out of their list.
fn push_ways(
    alloc: Global,
    relators: &mut Vec<Relator>,
    ways: &mut Vec<List<Move>>,
    level: &Level,
    edges: &[Edge],
    generators: &[(usize, Move)],
    at: usize,
) -> Result<(), OutOfMemory>
    requires closed { IsClosedLevel level.now }
    requires edges { AreEdges level.now edges.now }
    requires generators { AreGenerators (presentation [] level.now generators.now) }
    requires few { length generators.now ≤ most_level_edges }
    requires ways { All (IsWayFrom level.now at) ways.old.items }
    ensures { OnOk result (AddsRelators (presentation [] level.now generators.now) at ways.old.items (map relator_of relators.old.items) (map relator_of relators.new.items)) }
{
    ways.reverse();
    while let Some(moves) = ways.pop() {
        let word = numbers_on(alloc, level, edges, generators, at, moves.items())?;
        relators.push(Relator {
            at,
            moves,
            word: List::of(word),
        })?;
    }
    Ok(())
}

/// Adds the relators of a level: the instances at each tuple, with the numbers of their ways. It stops and answers false
/// where there are more than MOST_RELATORS, once it has passed them.
pub(crate) fn push_relators(
    alloc: Global,
    relators: &mut Vec<Relator>,
    level: &Level,
    edges: &[Edge],
    generators: &[(usize, Move)],
) -> Result<bool, OutOfMemory>
    requires rank { level.now.root.rank ≤ most_stabiliser_rank }
    requires root { IsTuple level.now.root }
    requires closed { IsClosedLevel level.now }
    requires edges { AreEdges level.now edges.now }
    requires generators { AreGenerators (presentation [] level.now generators.now) }
    requires few { length generators.now ≤ most_level_edges }
    requires none { relators.old.items ≡ [] }
    ensures { IfOk result (λ few. MatchBool few (AreRelators (presentation [] level.now generators.now) (map relator_of relators.new.items) × (relator_count level.now.tuples ≤ most_relators)) (most_relators < relator_count level.now.tuples)) }
{
    for at in 0..level.tuples().len() {
        let mut ways = instances(alloc, &level.tuples()[at])?;
        push_ways(alloc, relators, &mut ways, level, edges, generators, at)?;
        if relators.len() > MOST_RELATORS {
            return Ok(false);
        }
    }
    Ok(true)
}
