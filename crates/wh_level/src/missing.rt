//! The tuples of a level that rows miss.
ghost use Rattle.std.specs.Prelude.{◌≡◌, ◌⊎◌, ◌↔◌, [], map, Contains, IfOk, OnOk};
ghost use Rattle.std.specs.List.{All};
ghost use Rattle.std.specs.List.Sorted.{IsStrictlySortedBy};
ghost use Rattle.wh_words.specs.Tuples.{TupleData, tuple_cmp};
ghost use Rattle.wh_expand.specs.Rows.{IsRow, row_tuple};
ghost use Rattle.wh_level.specs.Sealings.{IsMissed};
ghost use Rattle.wh_level.specs.PlacedTuples.{IsPlacing, HasRoomsFor, KeepsRooms};
ghost use Rattle.wh_level.specs.Searches.{IsAbsentImage};

use crate::placing::image_place;
use std::alloc::Global;
use wh_expand::Row;
use wh_sets::TupleSet;
use wh_words::{List, OutOfMemory, Tuple};

/// Adds the images of the tuple of a row that have no place to those found before.
fn add_absent(
    alloc: Global,
    found: &mut TupleSet,
    places: &TupleSet,
    row: &Row,
    image: &mut Tuple,
) -> Result<(), OutOfMemory>
    requires row { IsRow row.now }
    requires rooms { HasRoomsFor image.old (row_tuple row.now) }
    ensures found { OnOk result ((t : TupleData) → Contains found.new t ↔ (Contains found.old t ⊎ IsAbsentImage places.now (row_tuple row.now) t)) }
    ensures rooms { KeepsRooms image.old image.new }
{
    for m in row.moves.items() {
        if image_place(places, &row.tuple, m, image).is_none() {
            found.add(alloc, image)?;
        }
    }
    Ok(())
}

/// The root and the images of rows that have no row, in order and each once, which are gathered in `found`.
fn missing_in(
    alloc: Global,
    root: &Tuple,
    rows: &[Row],
    places: &TupleSet,
    found: &mut TupleSet,
    image: &mut Tuple,
) -> Result<List<Tuple>, OutOfMemory>
    requires rows { All IsRow rows.now }
    requires placing { IsPlacing (map row_tuple rows.now) places.now }
    requires none_found { found.old ≡ [] }
    requires rooms { All (λ r. HasRoomsFor image.old (row_tuple r)) rows.now }
    ensures sorted { IfOk result (λ list. IsStrictlySortedBy tuple_cmp (map (λ t. t.plain) list)) }
    ensures exact { IfOk result (λ list. (t : TupleData) → Contains (map (λ u. u.plain) list) t ↔ IsMissed root.now.plain (map row_tuple rows.now) t) }
{
    if places.place(root).is_none() {
        found.add(alloc, root)?;
    }
    for row in rows {
        add_absent(alloc, found, places, row, image)?;
    }
    found.sort()?;
    Ok(List::of(found.copies(alloc)?))
}

/// The root and the images of rows that have no row, in order and each once.
pub(crate) fn missing(
    alloc: Global,
    root: &Tuple,
    rows: &[Row],
    places: &TupleSet,
    image: &mut Tuple,
) -> Result<List<Tuple>, OutOfMemory>
    requires rows { All IsRow rows.now }
    requires placing { IsPlacing (map row_tuple rows.now) places.now }
    requires rooms { All (λ r. HasRoomsFor image.old (row_tuple r)) rows.now }
    ensures sorted { IfOk result (λ list. IsStrictlySortedBy tuple_cmp (map (λ t. t.plain) list)) }
    ensures exact { IfOk result (λ list. (t : TupleData) → Contains (map (λ u. u.plain) list) t ↔ IsMissed root.now.plain (map row_tuple rows.now) t) }
{
    let mut found = TupleSet::new(alloc);
    missing_in(alloc, root, rows, places, &mut found, image)
}
