//! The places of tuples in order, and parents by these places.
ghost use Rattle.std.specs.Prelude.{◌≡◌, ◌<◌, length, map, Contains, IfOk, IfSome};
ghost use Rattle.std.specs.List.{All};
ghost use Rattle.wh_level.specs.Trees as spec;
ghost use Rattle.wh_level.specs.Trees.{AreMoved, AreOtherPlaces, AreWithin};
ghost use Rattle.wh_level.specs.PlacedTuples.{ArePlaces};

use std::alloc::Global;
use wh_moves::Move;
use wh_sets::TupleSet;
use wh_words::{OutOfMemory, Tuple};

/// For each of some tuples its place in a set that has them all.
pub(crate) fn other_places(
    alloc: Global,
    tuples: &[Tuple],
    places: &TupleSet,
) -> Result<Vec<usize>, OutOfMemory>
    requires { All (Contains places.now) (map (λ t. t.plain) tuples.now) }
    ensures { IfOk result (λ v. ArePlaces (map (λ t. t.plain) tuples.now) places.now v.items) }
{
    let mut others = Vec::new(alloc);
    for tuple in tuples {
        others.push(places.place(tuple).unwrap())?;
    }
    Ok(others)
}

/// A parent whose place has become another one.
fn moved_parent(parent: Option<(usize, Move)>, places: &[usize]) -> Option<(usize, Move)>
    requires { IfSome parent (λ p. p.0 < length places.now) }
    ensures { result ≡ spec.moved_parent places.now parent }
{
    match parent {
        None => None,
        Some((from, m)) => Some((places[from], m)),
    }
}

/// The parents of tuples that have taken other places.
pub(crate) fn moved_parents(
    alloc: Global,
    parents: &[Option<(usize, Move)>],
    places: &[usize],
) -> Result<Vec<Option<(usize, Move)>>, OutOfMemory>
    requires count { length parents.now ≡ length places.now }
    requires others { AreOtherPlaces places.now }
    requires within { AreWithin (length places.now) parents.now }
    ensures { IfOk result (λ v. AreMoved places.now parents.now (length places.now) v.items) }
{
    let mut moved = vec![in alloc; None; places.len()]?;
    for place in 0..places.len() {
        moved[places[place]] = moved_parent(parents[place], places);
    }
    Ok(moved)
}
