//! Whether a list of tuples is closed under level moves, told orbit by orbit. Swaps and inversions permute the letters:
//! they are level moves of every tuple, and take cuts to cuts (Lyndon and Schupp, I.4). So where a list has the images
//! of its tuples under swaps and inversions, a tuple stays in it under cuts if such an image does.
ghost use Rattle.std.specs.Prelude.{◌≡◌, ◌↔◌, ◌<◌, ◌≤◌, length, slice_get, Some, Contains, IsTrue, MatchOption, IfOk};
ghost use Rattle.std.specs.List.{All};
ghost use Rattle.wh_words.specs.Limits.{most_level_rank};
ghost use Rattle.wh_words.specs.Tuples.{IsTuple};
ghost use Rattle.wh_words.specs.Action as spec;
ghost use Rattle.wh_words.specs.Levels.{IsLevelMove};
ghost use Rattle.wh_cert.specs.Demands.{ImagesAreIn};
ghost use Rattle.wh_cert.specs.Listings.{IsRoomy, SwapsStay};
ghost use Rattle.wh_cert.specs.Orbits.{PermutesLetters, HasEarlierImage, IsPermutedIn, IsJudged, IsClosed};

use crate::images::images_are_in;
use std::alloc::Global;
use wh_moves::{Move, act_into};
use wh_sets::TupleSet;
use wh_words::{OutOfMemory, Tuple};

/// Whether the image of a tuple under a swap or an inversion, which `image` becomes, stands in a list before a place.
/// None where it isn't in the list.
fn is_earlier(
    listed: &TupleSet,
    tuple: &Tuple,
    m: &Move,
    place: usize,
    image: &mut Tuple,
) -> Option<bool>
    requires tuple { IsTuple tuple.now.plain }
    requires level { IsLevelMove tuple.now.plain m.now }
    requires permutes { PermutesLetters m.now.kind }
    requires roomy { IsRoomy image.old }
    ensures earlier { MatchOption result (¬ (Contains listed.now (spec.act tuple.now.plain m.now))) (λ b. Contains listed.now (spec.act tuple.now.plain m.now) × (IsTrue b → HasEarlierImage listed.now tuple.now.plain place)) }
    ensures roomy { IsRoomy image.new }
{
    act_into(tuple, m, image);
    Some(listed.place(image)? < place)
}

/// Whether an image of a tuple under a swap stands in a list before a place. None where one of these images isn't in the
/// list.
fn has_earlier_swap(
    listed: &TupleSet,
    tuple: &Tuple,
    place: usize,
    image: &mut Tuple,
) -> Option<bool>
    requires roomy { IsRoomy image.old }
    ensures earlier { MatchOption result (¬ (ImagesAreIn listed.now tuple.now.plain)) (λ b. SwapsStay listed.now tuple.now.plain × (IsTrue b → HasEarlierImage listed.now tuple.now.plain place)) }
    ensures roomy { IsRoomy image.new }
{
    let rank = tuple.rank();
    let mut earlier = false;
    for k in 1..rank.get() {
        earlier |= is_earlier(listed, tuple, &Move::swap(rank, k).unwrap(), place, image)?;
    }
    Some(earlier)
}

/// Whether an image of a tuple under a swap or the inversion of the first generator stands in a list before a place.
/// None where one of these images isn't in the list. They tell of the inversions of the others, which swaps carry to
/// the first.
fn has_earlier_image(
    listed: &TupleSet,
    tuple: &Tuple,
    place: usize,
    image: &mut Tuple,
) -> Option<bool>
    requires roomy { IsRoomy image.old }
    ensures earlier { MatchOption result (¬ (ImagesAreIn listed.now tuple.now.plain)) (λ b. IsPermutedIn listed.now tuple.now.plain × (IsTrue b → HasEarlierImage listed.now tuple.now.plain place)) }
    ensures roomy { IsRoomy image.new }
{
    let first = Move::invert(tuple.rank(), 1).unwrap();
    let swapped = has_earlier_swap(listed, tuple, place, image)?;
    let inverted = is_earlier(listed, tuple, &first, place, image)?;
    Some(swapped || inverted)
}

/// Whether an image of a tuple under the inversion of another generator than the first stands in a list before a place.
/// None where one that is tried isn't in the list.
fn has_earlier_inversion(
    listed: &TupleSet,
    tuple: &Tuple,
    place: usize,
    image: &mut Tuple,
) -> Option<bool>
    requires roomy { IsRoomy image.old }
    ensures earlier { MatchOption result (¬ (ImagesAreIn listed.now tuple.now.plain)) (λ b. IsTrue b → HasEarlierImage listed.now tuple.now.plain place) }
    ensures roomy { IsRoomy image.new }
{
    let rank = tuple.rank();
    for k in 2..rank.get() + 1 {
        if is_earlier(listed, tuple, &Move::invert(rank, k).unwrap(), place, image)? {
            return Some(true);
        }
    }
    Some(false)
}

/// Whether an image of a tuple under a swap or an inversion stands in a list before a place. None where one that is tried
/// isn't in the list. All swaps are tried, and the inversion of the first generator.
fn follows_its_orbit(
    listed: &TupleSet,
    tuple: &Tuple,
    place: usize,
    image: &mut Tuple,
) -> Option<bool>
    requires roomy { IsRoomy image.old }
    ensures earlier { MatchOption result (¬ (ImagesAreIn listed.now tuple.now.plain)) (λ b. IsPermutedIn listed.now tuple.now.plain × (IsTrue b → HasEarlierImage listed.now tuple.now.plain place)) }
    ensures roomy { IsRoomy image.new }
{
    Some(
        has_earlier_image(listed, tuple, place, image)?
            || has_earlier_inversion(listed, tuple, place, image)?,
    )
}

/// Whether the images of the tuple at a place of a list under its swaps and inversions are in the list, and those under
/// its cuts too where no image that stands before the tuple tells of them.
fn is_judged(
    alloc: Global,
    listed: &TupleSet,
    place: usize,
    image: &mut Tuple,
) -> Result<bool, OutOfMemory>
    requires within { place < length listed.now }
    requires ranks { All (λ t. t.rank ≤ most_level_rank) listed.now }
    requires roomy { IsRoomy image.old }
    ensures judged { IfOk result (λ b. IsJudged listed.now place b) }
    ensures roomy { IsRoomy image.new }
{
    let tuple = listed.tuple(place);
    match follows_its_orbit(listed, tuple, place, image) {
        None => Ok(false),
        Some(true) => Ok(true),
        Some(false) => images_are_in(alloc, listed, tuple, image),
    }
}

/// Whether the images of all tuples of a list under their level moves are in the list, where the ranks are
/// MOST_LEVEL_RANK at most.
pub(crate) fn all_closed(
    alloc: Global,
    listed: &TupleSet,
    image: &mut Tuple,
) -> Result<bool, OutOfMemory>
    requires ranks { All (λ t. t.rank ≤ most_level_rank) listed.now }
    requires roomy { IsRoomy image.old }
    ensures closed { IfOk result (λ b. IsTrue b ↔ IsClosed listed.now) }
    ensures roomy { IsRoomy image.new }
{
    for place in 0..listed.len() {
        if !is_judged(alloc, listed, place, image)? {
            return Ok(false);
        }
    }
    Ok(true)
}
