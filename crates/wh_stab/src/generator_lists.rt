//! Generators as lists of moves.
ghost use Rattle.std.specs.Prelude.{◌≡◌, ◌-◌, ◌<◌, ◌++◌, ◌∷◌, length, map, slice_get, Some, Contains, MatchOption, IfOk};
ghost use Rattle.wh_words.specs.MoveLists.{inverse_list};
ghost use Rattle.wh_words.specs.Tuples.{TupleData, own_room};
ghost use Rattle.wh_words.specs.Action as spec;
ghost use Rattle.wh_moves.specs.Acts.{Fits};
ghost use Rattle.wh_level.specs.Trees.{IsRooted, path_to};
ghost use Rattle.wh_stab.specs.Presentations.{generator_moves, IsNumber};
ghost use Rattle.wh_stab.specs.GeneratorLists.{CanList, Joins, presentation_of};

use crate::stab::Stab;
use std::alloc::Global;
use wh_level::tree_path;
use wh_moves::{Move, act_into, acted_length, joined};
use wh_words::{OutOfMemory, Tuple};

/// The image of a tuple under a move.
#[tactic(auto, using(wh_moves::proofs::ActedWords::act_own))]
fn image(alloc: Global, tuple: &Tuple, m: &Move) -> Result<Tuple, OutOfMemory>
    requires rank { tuple.now.plain.rank ≡ m.now.rank }
    requires short { Fits (spec.act tuple.now.plain m.now) }
    ensures { IfOk result (λ t. t ≡ own_room (spec.act tuple.now.plain m.now)) }
{
    let length = acted_length(tuple, m);
    let mut made = Tuple::with_room(alloc, m.rank(), tuple.count(), length as usize)?;
    act_into(tuple, m, &mut made);
    Ok(made)
}

/// The place of a tuple among others, counted from 0. None exactly where it isn't there.
fn place_among(tuples: &[Tuple], tuple: &Tuple) -> Option<usize>
    ensures { MatchOption result (¬ (Contains (map (λ t. t.plain) tuples.now) tuple.now.plain)) (λ v. slice_get (map (λ t. t.plain) tuples.now) v ≡ Some tuple.now.plain) }
{
    for place in 0..tuples.len() {
        if tuples[place] == *tuple {
            return Some(place);
        }
    }
    None
}

/// The place of the vertex to which the edge from a vertex leads by a move.
fn end_of(alloc: Global, stab: &Stab, from: usize, via: &Move) -> Result<usize, OutOfMemory>
    requires { Joins (presentation_of stab.now) (from, via.now) }
    ensures { (t : TupleData) → slice_get (presentation_of stab.now).vertices from ≡ Some t → IfOk result (λ v. slice_get (presentation_of stab.now).vertices v ≡ Some (spec.act t via.now)) }
{
    let vertices = stab.vertices.items();
    let end = image(alloc, &vertices[from], via)?;
    Ok(place_among(vertices, &end).unwrap())
}

/// The loop of an edge: the tree's path to its start, its move, and the path to its end back.
fn loop_of(
    alloc: Global,
    stab: &Stab,
    from: usize,
    via: Move,
    to: usize,
) -> Result<Vec<Move>, OutOfMemory>
    requires rooted { IsRooted stab.now.tree.parent }
    requires from { from < length stab.now.tree.parent }
    requires to { to < length stab.now.tree.parent }
    ensures { IfOk result (λ v. v.items ≡ path_to stab.now.tree.parent from ++ via ∷ inverse_list (path_to stab.now.tree.parent to)) }
{
    let parents = stab.tree.parent.items();
    let there = tree_path(alloc, parents, from)?;
    let back = tree_path(alloc, parents, to)?;
    joined(alloc, &there, &[via], &back)
}

/// The start of the edge of a generator, by its number: a place and a move.
fn start_of(stab: &Stab, k: u32) -> (usize, Move)
    requires { IsNumber (presentation_of stab.now) k }
    ensures { slice_get stab.now.generators (k - 1) ≡ Some result }
{
    stab.generators.items()[k as usize - 1]
}

/// The moves of a generator, by its number, counted from 1: the trace, the tree's path to the vertex at which its edge
/// starts, the move of the edge, the path to its end back, and the trace back (McCool 1975). The generators of a
/// stabiliser that `stabiliser` answers all fix the tuple, and others too where no vertex stands twice, each has an entry
/// in the tree, from each the parents lead back to the only one that has none, and the edge of the generator joins
/// vertices. It answers an error where memory runs out.
pub fn generator_list(alloc: Global, stab: &Stab, k: u32) -> Result<Vec<Move>, OutOfMemory>
    requires { CanList (presentation_of stab.now) k }
    ensures { IfOk result (λ v. v.items ≡ generator_moves (presentation_of stab.now) k) }
{
    let (from, via) = start_of(stab, k);
    let to = end_of(alloc, stab, from, &via)?;
    let around = loop_of(alloc, stab, from, via, to)?;
    let trace = stab.trace.items();
    joined(alloc, trace, &around, trace)
}
