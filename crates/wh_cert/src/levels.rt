//! The lines of a level.
ghost use Rattle.std.specs.Prelude.{◌↔◌, ◌+◌, ◌<◌, ◌≤◌, List, [], ◌∷◌, length, Contains, IsTrue, IfOk};
ghost use Rattle.std.specs.List.{All};
ghost use Rattle.wh_words.specs.Limits.{most_level_rank};
ghost use Rattle.wh_words.specs.Tuples.{TupleData};
ghost use Rattle.wh_sets.specs.TupleSets.{HaveSameTuples};
ghost use Rattle.wh_data.specs.AnswerData.{plains};
ghost use Rattle.std.specs.Option.{option_map};
ghost use Rattle.wh_cert.specs.Demands.{Rises, ImagesAreIn, rises, has_height, is_closed, tuple_at, absent_asked, asked_below, at_asked, level_asked};
ghost use Rattle.wh_cert.specs.Listings.{IsRoomy};
ghost use Rattle.wh_cert.specs.Judged.{Judges};

use crate::checked::Rule;
use crate::closure::all_closed;
use crate::images::images_are_in;
use crate::stop::{Stop, ask};
use std::alloc::Global;
use wh_sets::TupleSet;
use wh_words::{MOST_LETTERS, MOST_WORDS, OutOfMemory, Tuple};

/// Whether a tuple is greater than the one before it, if any.
fn is_greater(tuples: &[Tuple], k: usize) -> bool
    requires { k < length tuples.now }
    ensures { IsTrue result ↔ Rises (plains tuples.now) k }
{
    if k == 0 {
        return true;
    }
    tuples[k - 1].compared(&tuples[k]).is_lt()
}

/// Judges whether a tuple of a level, in the line at a place, is the end of the second side, where there is one.
fn judge_absent(place: usize, second: Option<&Tuple>, tuple: &Tuple) -> Result<(), Stop>
    ensures { Judges (absent_asked place (option_map (λ s. s.now.plain) second.entry) tuple.now.plain) result }
{
    match second {
        Some(second) => ask(place, Rule::Absent, !tuple.same(second)),
        None => Ok(()),
    }
}

/// Judges what rules ask of one tuple of a level, in the line at a place, but for its images.
fn judge_tuple(
    place: usize,
    root: &Tuple,
    second: Option<&Tuple>,
    tuples: &[Tuple],
    k: usize,
) -> Result<(), Stop>
    requires { k < length tuples.now }
    ensures { Judges ((place, rises (plains tuples.now) k) ∷ (place, has_height root.now.plain (tuple_at (plains tuples.now) k)) ∷ absent_asked place (option_map (λ s. s.now.plain) second.entry) (tuple_at (plains tuples.now) k)) result }
{
    ask(place, Rule::Sorted, is_greater(tuples, k))?;
    ask(place, Rule::Height, tuples[k].length() == root.length())?;
    judge_absent(place, second, &tuples[k])
}

/// Judges the images of a tuple of a level, in the line at a place, where the whole level isn't known to be closed.
fn judge_images(
    alloc: Global,
    place: usize,
    listed: &TupleSet,
    closed: bool,
    tuple: &Tuple,
    image: &mut Tuple,
) -> Result<(), Stop>
    requires closed { IsTrue closed → ImagesAreIn listed.now tuple.now.plain }
    requires rank { tuple.now.plain.rank ≤ most_level_rank }
    requires own { Contains listed.now tuple.now.plain }
    requires roomy { IsRoomy image.old }
    ensures judges { (ts : List TupleData) → HaveSameTuples listed.now ts → Judges ((place, is_closed ts tuple.now.plain) ∷ []) result }
    ensures roomy { IsRoomy image.new }
{
    if closed {
        return Ok(());
    }
    // The proof takes from this call that it is a tuple.
    tuple.rank();
    let stays = images_are_in(alloc, listed, tuple, image)?;
    ask(place, Rule::Closed, stays)
}

/// A tuple without words, in whose rooms every tuple fits.
pub(crate) fn roomy(alloc: Global, tuple: &Tuple) -> Result<Tuple, OutOfMemory>
    ensures { IfOk result IsRoomy }
{
    Tuple::with_room(alloc, tuple.rank(), MOST_WORDS, MOST_LETTERS as usize)
}

/// Judges the `at` lines of a level of rank MOST_LEVEL_RANK at most, of which the first is at a place. `image` is written
/// over. Whether the level is closed is asked of all tuples at once, and only where it isn't of one after the other.
fn judge_each_tuple(
    alloc: Global,
    place: usize,
    root: &Tuple,
    second: Option<&Tuple>,
    tuples: &[Tuple],
    listed: &TupleSet,
    image: &mut Tuple,
) -> Result<(), Stop>
    requires ranks { All (λ t. t.plain.rank ≤ most_level_rank) tuples.now }
    requires same { HaveSameTuples listed.now (plains tuples.now) }
    requires low { place ≤ 1000 }
    requires roomy { IsRoomy image.old }
    ensures { Judges (asked_below (at_asked place root.now.plain (option_map (λ s. s.now.plain) second.entry) (plains tuples.now)) (length (plains tuples.now))) result }
{
    let closed = all_closed(alloc, listed, image)?;
    for k in 0..tuples.len() {
        judge_tuple(place + k, root, second, tuples, k)?;
        judge_images(alloc, place + k, listed, closed, &tuples[k], image)?;
    }
    Ok(())
}

/// Judges the `at` lines of a level of rank MOST_LEVEL_RANK at most, of which the first is at a place.
fn judge_tuples(
    alloc: Global,
    place: usize,
    root: &Tuple,
    second: Option<&Tuple>,
    tuples: &[Tuple],
    listed: &TupleSet,
) -> Result<(), Stop>
    requires ranks { All (λ t. t.plain.rank ≤ most_level_rank) tuples.now }
    requires same { HaveSameTuples listed.now (plains tuples.now) }
    requires low { place ≤ 1000 }
    ensures { Judges (asked_below (at_asked place root.now.plain (option_map (λ s. s.now.plain) second.entry) (plains tuples.now)) (length (plains tuples.now))) result }
{
    let mut image = roomy(alloc, root)?;
    judge_each_tuple(alloc, place, root, second, tuples, listed, &mut image)
}

/// Judges the `level` line, which is at a place, and the `at` lines of a level of rank MOST_LEVEL_RANK at most, in which
/// the end of the second side, where there is one, is not to be.
pub(crate) fn judge_level(
    alloc: Global,
    place: usize,
    root: &Tuple,
    second: Option<&Tuple>,
    tuples: &[Tuple],
) -> Result<(), Stop>
    requires ranks { All (λ t. t.plain.rank ≤ most_level_rank) tuples.now }
    requires low { place < 1000 }
    ensures { Judges (level_asked place root.now.plain (option_map (λ s. s.now.plain) second.entry) (plains tuples.now)) result }
{
    let listed = TupleSet::of(alloc, tuples)?;
    ask(place, Rule::Root, listed.has(root))?;
    judge_tuples(alloc, place + 1, root, second, tuples, &listed)
}
