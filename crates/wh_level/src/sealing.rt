//! Sealing: rows are a whole level, or miss some tuples.
ghost use Rattle.std.specs.Prelude.{◌≡◌, ◌≤◌, map, IfOk};
ghost use Rattle.std.specs.List.{All};
ghost use Rattle.wh_words.specs.Limits.{most_level_rank};
ghost use Rattle.wh_words.specs.Tuples.{IsTuple};
ghost use Rattle.wh_words.specs.Levels.{InLevel, IsLevel};
ghost use Rattle.wh_expand.specs.Rows.{IsRow, row_tuple};
ghost use Rattle.wh_level.specs.Sealings.{Seals};
ghost use Rattle.wh_level.specs.Trees.{AreParents, IsClosedLevel};
ghost use Rattle.wh_level.specs.PlacedTuples.{HasRoomsFor, IsPlacing};

use crate::level::Level;
use crate::missing::missing;
use crate::placing::placed;
use crate::search::first_parents;
use std::alloc::Global;
use wh_expand::Row;
use wh_moves::Move;
use wh_sets::TupleSet;
use wh_words::{List, OutOfMemory, Tuple};

/// Whether rows are a whole level.
#[derive(Drop)]
pub enum Sealed {
    /// The tuples of the rows are the whole level.
    Closed(Level),
    /// Tuples of the level that have no row, in order and each once: the root, and images of tuples that have one.
    Missing(List<Tuple>),
}

/// A tuple without words, with rooms for every tuple of the level of a root.
pub(crate) fn blank(alloc: Global, root: &Tuple) -> Result<Tuple, OutOfMemory>
    ensures rooms { IfOk result (λ t. HasRoomsFor t root.now.plain) }
    ensures root { IsTuple root.now.plain }
{
    Tuple::with_room(alloc, root.rank(), root.count(), root.length() as usize)
}

/// The level of a root: copies of its tuples by their places, with their parents.
pub(crate) fn level_of(
    alloc: Global,
    root: &Tuple,
    places: &TupleSet,
    parents: Vec<Option<(usize, Move)>>,
) -> Result<Level, OutOfMemory>
    requires rank { root.now.plain.rank ≤ most_level_rank }
    requires level { IsLevel root.now.plain places.now }
    requires parents { AreParents root.now.plain places.now parents.items }
    ensures root { IfOk result (λ level. level.root ≡ root.now.plain) }
    ensures tuples { IfOk result (λ level. level.tuples ≡ places.now) }
    ensures closed { IfOk result IsClosedLevel }
{
    Ok(Level {
        root: root.copy(alloc)?,
        tuples: places.copies(alloc)?,
        parents,
    })
}

/// Whether rows that are placed are the whole level of a root, or which of its images they miss.
fn seal_placed(
    alloc: Global,
    root: &Tuple,
    rows: &[Row],
    places: &TupleSet,
    image: &mut Tuple,
) -> Result<Sealed, OutOfMemory>
    requires root { IsTuple root.now.plain }
    requires rank { root.now.plain.rank ≤ most_level_rank }
    requires rows { All IsRow rows.now }
    requires placing { IsPlacing (map row_tuple rows.now) places.now }
    requires within { All (λ r. InLevel root.now.plain (row_tuple r)) rows.now }
    requires rooms { HasRoomsFor image.old root.now.plain }
    ensures { IfOk result (Seals root.now.plain (map row_tuple rows.now)) }
{
    match first_parents(alloc, root, rows, places, image)? {
        Some(parents) => Ok(Sealed::Closed(level_of(alloc, root, places, parents)?)),
        None => Ok(Sealed::Missing(missing(alloc, root, rows, places, image)?)),
    }
}

/// The same, in a tuple for images that is made for it.
fn seal_in_room(
    alloc: Global,
    root: &Tuple,
    rows: &[Row],
    places: &TupleSet,
) -> Result<Sealed, OutOfMemory>
    requires rank { root.now.plain.rank ≤ most_level_rank }
    requires rows { All IsRow rows.now }
    requires placing { IsPlacing (map row_tuple rows.now) places.now }
    requires within { All (λ r. InLevel root.now.plain (row_tuple r)) rows.now }
    ensures { IfOk result (Seals root.now.plain (map row_tuple rows.now)) }
{
    let mut image = blank(alloc, root)?;
    seal_placed(alloc, root, rows, places, &mut image)
}

/// Whether rows are the whole level of a root of rank MOST_LEVEL_RANK at most, or which of its images they miss. Each
/// row has the level moves of its tuple, which is in the level of the root. `Closed` comes exactly where the tuples of
/// the rows are the whole level (Lyndon and Schupp, I.4).
pub fn seal(alloc: Global, root: &Tuple, rows: &[Row]) -> Result<Sealed, OutOfMemory>
    requires rank { root.now.plain.rank ≤ most_level_rank }
    requires rows { All IsRow rows.now }
    requires within { All (λ r. InLevel root.now.plain (row_tuple r)) rows.now }
    ensures { IfOk result (Seals root.now.plain (map row_tuple rows.now)) }
{
    let places = placed(alloc, rows)?;
    seal_in_room(alloc, root, rows, &places)
}
