//! A way round a peak of any two cuts, by way of the cut of a quadrant.
ghost use Rattle.std.specs.Prelude.{◌≡◌, ℕ, ◌+◌, ◌*◌, ◌^◌, ◌<◌, ◌≤◌, true, false, not, ◌⊎◌, ◌↔◌, IsTrue, length, IfOk, IfSome};
ghost use Rattle.wh_words.specs.Limits.{most_rank};
ghost use Rattle.wh_words.specs.Letters.{inverse_letter};
ghost use Rattle.wh_words.specs.LetterSets.{in_set};
ghost use Rattle.wh_words.specs.Tuples.{tuple_length};
ghost use Rattle.wh_words.specs.Moves.{IsCut};
ghost use Rattle.wh_words.specs.Moves as spec;
ghost use Rattle.wh_words.specs.Action.{act};
ghost use Rattle.wh_peak.specs.Relations.{HasLetters};
ghost use Rattle.wh_peak.specs.Straightness.{IsLowered, IsPeak};
ghost use Rattle.wh_straighten.specs.Lowering.{IsQuadrant, Serves, agree};

use crate::disjoint_cuts::disjoint_way;
use crate::making::shortens;
use std::alloc::Global;
use wh_moves::Move;
use wh_words::{Letter, LetterSet, OutOfMemory, Rank, Tuple};

/// The letters of a rank that are in a set where a letter is: those of the set where it holds the letter, and else the
/// others.
fn beside(rank: Rank, set: LetterSet, letter: Letter) -> LetterSet
    requires { set < 2 ^ (2 * rank) }
    ensures letters { HasLetters rank result (λ x. agree (in_set set letter) (in_set set x)) }
    ensures within { result < 2 ^ (2 * rank) }
{
    if set.contains(letter) {
        set
    } else {
        set.complement(rank)
    }
}

/// The quadrant of a letter.
fn quadrant(rank: Rank, first: LetterSet, second: LetterSet, letter: Letter) -> LetterSet
    requires first { first < 2 ^ (2 * rank) }
    requires second { second < 2 ^ (2 * rank) }
    ensures quadrant { IsQuadrant rank first second letter result }
    ensures low { rank ≤ most_rank }
{
    // The rank is at most 26, which the proof takes from this call.
    rank.get();
    let near = beside(rank, first, letter);
    let far = beside(rank, second, letter);
    LetterSet::of_bits(near.bits() & far.bits())
}

/// The multiplier of a cut on its side without a letter: its own where its set omits the letter, and else the inverse.
fn side_mult(mult: Letter, set: LetterSet, letter: Letter) -> Letter
    ensures same { in_set set letter ≡ false → result ≡ mult }
    ensures turned { in_set set letter ≡ true → result ≡ inverse_letter mult }
{
    if set.contains(letter) {
        mult.inverse()
    } else {
        mult
    }
}

/// The set of a cut on its side without a letter: its own where it omits the letter, and else the complement, which at
/// the inverse of the multiplier does the same up to a conjugation.
fn side_set(rank: Rank, set: LetterSet, letter: Letter) -> LetterSet
    requires { set < 2 ^ (2 * rank) }
    ensures same { in_set set letter ≡ false → result ≡ set }
    ensures turned { in_set set letter ≡ true → HasLetters rank result (λ x. not (in_set set x)) }
    ensures within { result < 2 ^ (2 * rank) }
{
    if set.contains(letter) {
        set.complement(rank)
    } else {
        set
    }
}

/// Whether the cut of the quadrant of a letter shortens the top.
fn shortens_at(top: &Tuple, first_set: LetterSet, second_set: LetterSet, letter: Letter) -> bool
    requires first { first_set < 2 ^ (2 * top.now.plain.rank) }
    requires second { second_set < 2 ^ (2 * top.now.plain.rank) }
    requires of_rank { letter < 2 * top.now.plain.rank }
    requires split { (in_set first_set (inverse_letter letter) ≡ not (in_set first_set letter)) ⊎ (in_set second_set (inverse_letter letter) ≡ not (in_set second_set letter)) }
    ensures { (Q : ℕ) → IsQuadrant top.now.plain.rank first_set second_set letter Q → IsTrue result ↔ (tuple_length (act top.now.plain (spec.cut_move top.now.plain.rank letter Q)) < tuple_length top.now.plain) }
{
    shortens(
        top,
        letter,
        quadrant(top.rank(), first_set, second_set, letter),
    )
}

/// One of the multipliers of a peak of two cuts and their inverses, the cut of whose quadrant shortens the top.
fn serving_letter(
    top: &Tuple,
    first_mult: Letter,
    first_set: LetterSet,
    second_mult: Letter,
    second_set: LetterSet,
) -> Letter
    requires first { IsCut top.now.plain.rank first_mult first_set }
    requires second { IsCut top.now.plain.rank second_mult second_set }
    requires peak { IsPeak top.now.plain (spec.cut_move top.now.plain.rank first_mult first_set) (spec.cut_move top.now.plain.rank second_mult second_set) }
    ensures { (Q : ℕ) → IsQuadrant top.now.plain.rank first_set second_set result Q → Serves top.now.plain first_set second_set result Q }
{
    // The tuple is one, which the proof takes from this call.
    top.rank();
    if shortens_at(top, first_set, second_set, first_mult) {
        return first_mult;
    }
    let first_back = first_mult.inverse();
    if shortens_at(top, first_set, second_set, first_back) {
        return first_back;
    }
    if shortens_at(top, first_set, second_set, second_mult) {
        return second_mult;
    }
    second_mult.inverse()
}

/// The way round a peak of two cuts between their sides without a letter, where the sets of these are disjoint.
fn way_without(
    alloc: Global,
    top: &Tuple,
    first_mult: Letter,
    first_set: LetterSet,
    second_mult: Letter,
    second_set: LetterSet,
    letter: Letter,
) -> Result<Option<Vec<Move>>, OutOfMemory>
    requires first { IsCut top.now.plain.rank first_mult first_set }
    requires second { IsCut top.now.plain.rank second_mult second_set }
    requires peak { IsPeak top.now.plain (spec.cut_move top.now.plain.rank first_mult first_set) (spec.cut_move top.now.plain.rank second_mult second_set) }
    ensures lowered { IfOk result (λ o. IfSome o (λ v. IsLowered top.now.plain (spec.cut_move top.now.plain.rank first_mult first_set) (spec.cut_move top.now.plain.rank second_mult second_set) v.items)) }
    ensures few { IfOk result (λ o. IfSome o (λ v. length v.items ≤ top.now.plain.rank * top.now.plain.rank + top.now.plain.rank + 2)) }
{
    let rank = top.rank();
    // The rank is at most 26, which the proof takes from this call.
    rank.get();
    let near = side_mult(first_mult, first_set, letter);
    let near_set = side_set(rank, first_set, letter);
    let far = side_mult(second_mult, second_set, letter);
    let far_set = side_set(rank, second_set, letter);
    if near_set.bits() & far_set.bits() != 0 {
        return Ok(None);
    }
    let way = disjoint_way(alloc, top, near, near_set, far, far_set)?;
    Ok(Some(way))
}

/// A way round a peak of two cuts, by way of the tuple after a cut of a quadrant.
fn way_by_quadrant(
    alloc: Global,
    top: &Tuple,
    first_mult: Letter,
    first_set: LetterSet,
    second_mult: Letter,
    second_set: LetterSet,
) -> Result<Vec<Move>, OutOfMemory>
    requires first { IsCut top.now.plain.rank first_mult first_set }
    requires second { IsCut top.now.plain.rank second_mult second_set }
    requires peak { IsPeak top.now.plain (spec.cut_move top.now.plain.rank first_mult first_set) (spec.cut_move top.now.plain.rank second_mult second_set) }
    ensures lowered { IfOk result (λ v. IsLowered top.now.plain (spec.cut_move top.now.plain.rank first_mult first_set) (spec.cut_move top.now.plain.rank second_mult second_set) v.items) }
    ensures few { IfOk result (λ v. length v.items ≤ 2 * (top.now.plain.rank * top.now.plain.rank + top.now.plain.rank + 2)) }
{
    let rank = top.rank();
    let mult = serving_letter(top, first_mult, first_set, second_mult, second_set);
    let set = quadrant(rank, first_set, second_set, mult);
    let near = side_mult(first_mult, first_set, mult);
    let near_set = side_set(rank, first_set, mult);
    let far = side_mult(second_mult, second_set, mult);
    let far_set = side_set(rank, second_set, mult);
    let mut way = disjoint_way(alloc, top, near, near_set, mult, set)?;
    way.extend_from_slice(&disjoint_way(alloc, top, mult, set, far, far_set)?)?;
    Ok(way)
}

/// A way round a peak of two cuts. Where they have disjoint sides without one of their letters it lies between these, which
/// makes it half as long as a way by a quadrant.
pub(crate) fn lower_cuts(
    alloc: Global,
    top: &Tuple,
    first_mult: Letter,
    first_set: LetterSet,
    second_mult: Letter,
    second_set: LetterSet,
) -> Result<Vec<Move>, OutOfMemory>
    requires first { IsCut top.now.plain.rank first_mult first_set }
    requires second { IsCut top.now.plain.rank second_mult second_set }
    requires peak { IsPeak top.now.plain (spec.cut_move top.now.plain.rank first_mult first_set) (spec.cut_move top.now.plain.rank second_mult second_set) }
    ensures lowered { IfOk result (λ v. IsLowered top.now.plain (spec.cut_move top.now.plain.rank first_mult first_set) (spec.cut_move top.now.plain.rank second_mult second_set) v.items) }
    ensures few { IfOk result (λ v. length v.items ≤ 2 * (top.now.plain.rank * top.now.plain.rank + top.now.plain.rank + 2)) }
{
    for letter in [
        first_mult,
        first_mult.inverse(),
        second_mult,
        second_mult.inverse(),
    ] {
        if let Some(way) = way_without(
            alloc,
            top,
            first_mult,
            first_set,
            second_mult,
            second_set,
            letter,
        )? {
            return Ok(way);
        }
    }
    way_by_quadrant(alloc, top, first_mult, first_set, second_mult, second_set)
}
