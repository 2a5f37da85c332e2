//! The tuples of rows by their places, and the places of their images.
ghost use Rattle.wh_words.specs.Action as spec;
ghost use Rattle.wh_words.specs.Levels.{IsLevelMove};
ghost use Rattle.wh_expand.specs.Rows.{row_tuple};
ghost use Rattle.std.specs.Prelude.{◌≡◌, map, slice_get, Some, Contains, MatchOption, IfOk};
ghost use Rattle.wh_words.specs.Tuples.{in_rooms_of};
ghost use Rattle.wh_level.specs.PlacedTuples.{IsPlacing, AreRowNumbers, HasRoomsFor};

use std::alloc::Global;
use wh_expand::Row;
use wh_moves::{Move, act_into};
use wh_sets::TupleSet;
use wh_words::{OutOfMemory, Tuple};

/// The tuples of rows in order, each once.
pub(crate) fn placed(alloc: Global, rows: &[Row]) -> Result<TupleSet, OutOfMemory>
    ensures { IfOk result (IsPlacing (map row_tuple rows.now)) }
{
    let mut places = TupleSet::new(alloc);
    for row in rows {
        places.add(alloc, &row.tuple)?;
    }
    places.sort()?;
    Ok(places)
}

/// For each place the number of a row that has its tuple.
pub(crate) fn row_numbers(
    alloc: Global,
    rows: &[Row],
    places: &TupleSet,
) -> Result<Vec<usize>, OutOfMemory>
    requires { IsPlacing (map row_tuple rows.now) places.now }
    ensures { IfOk result (λ v. AreRowNumbers (map row_tuple rows.now) places.now v.items) }
{
    let mut numbers = vec![in alloc; 0; places.len()]?;
    for number in 0..rows.len() {
        let place = places.place(&rows[number].tuple).unwrap();
        numbers[place] = number;
    }
    Ok(numbers)
}

/// The place of the image of a tuple under a level move, which `image` becomes. It takes no memory.
pub(crate) fn image_place(
    places: &TupleSet,
    tuple: &Tuple,
    m: &Move,
    image: &mut Tuple,
) -> Option<usize>
    requires level { IsLevelMove tuple.now.plain m.now }
    requires rooms { HasRoomsFor image.old tuple.now.plain }
    ensures place { MatchOption result (¬ (Contains places.now (spec.act tuple.now.plain m.now))) (λ v. slice_get places.now v ≡ Some (spec.act tuple.now.plain m.now)) }
    ensures image { image.new ≡ in_rooms_of image.old (spec.act tuple.now.plain m.now) }
{
    act_into(tuple, m, image);
    places.place(image)
}
