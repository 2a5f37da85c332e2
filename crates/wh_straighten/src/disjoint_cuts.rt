//! Ways between two cuts whose sets are disjoint.
ghost use Rattle.std.specs.Prelude.{◌≡◌, ◌≢◌, ◌+◌, ◌*◌, ◌/◌, ◌^◌, ◌<◌, ◌≤◌, true, false, not, ◌==◌, ◌&&◌, ◌||◌, length, IfOk};
ghost use Rattle.std.specs.Int.{bit_at};
ghost use Rattle.wh_words.specs.Limits.{most_rank};
ghost use Rattle.wh_words.specs.Letters.{inverse_letter};
ghost use Rattle.wh_words.specs.LetterSets.{in_set};
ghost use Rattle.wh_words.specs.Tuples.{tuple_length};
ghost use Rattle.wh_words.specs.Moves.{IsCut, turned_set};
ghost use Rattle.wh_words.specs.Moves as spec;
ghost use Rattle.wh_words.specs.Action.{act};
ghost use Rattle.wh_composites.specs.SignedPerms.{carry};
ghost use Rattle.wh_peak.specs.Relations.{AreDisjoint, HasLetters};
ghost use Rattle.wh_peak.specs.Straightness.{IsLowered, IsPeak};
ghost use Rattle.wh_straighten.specs.Lowering.{IsTurnedWay};

use crate::making::{cut_move, one_move, shortens, two_moves};
use std::alloc::Global;
use wh_composites::{SignedPerm, perm_word};
use wh_moves::Move;
use wh_words::{Letter, LetterSet, OutOfMemory, Rank, Tuple};

/// The letters of two sets of a rank but for one.
fn united_without(rank: Rank, first: LetterSet, second: LetterSet, letter: Letter) -> LetterSet
    requires first { first < 2 ^ (2 * rank) }
    requires second { second < 2 ^ (2 * rank) }
    ensures letters { HasLetters rank result (λ x. (in_set first x || in_set second x) && not (x == letter)) }
    ensures within { result < 2 ^ (2 * rank) }
    ensures low { rank ≤ most_rank }
{
    // The rank is at most 26, which the proof takes from this call.
    rank.get();
    LetterSet::of_bits(first.bits() | second.bits()).without(letter)
}

/// The set of a cut with the inverse of the multiplier in its place.
fn turned(mult: Letter, set: LetterSet) -> LetterSet
    requires holds { bit_at set mult ≡ 1 }
    requires omits { bit_at set (inverse_letter mult) ≡ 0 }
    ensures { result ≡ turned_set mult set }
{
    set.with(mult.inverse()).without(mult)
}

/// A move, the swaps and inversions that carry a letter to another, and a move.
fn carried_way(
    alloc: Global,
    rank: Rank,
    first: Move,
    from: Letter,
    to: Letter,
    last: Move,
) -> Result<Vec<Move>, OutOfMemory>
    requires from_of_rank { from < 2 * rank }
    requires to_of_rank { to < 2 * rank }
    requires apart { from / 2 ≢ to / 2 }
    ensures way { IfOk result (λ v. IsTurnedWay rank first last (carry from to) v.items) }
    ensures few { IfOk result (λ v. length v.items ≤ rank * rank + rank + 2) }
{
    let carrying = perm_word(alloc, &SignedPerm::carry(rank, from, to))?;
    let mut way = Vec::new(alloc);
    way.push(first)?;
    way.extend_from_slice(&carrying)?;
    way.push(last)?;
    Ok(way)
}

/// The way between two disjoint cuts whose sets hold the inverse of each other's multiplier: by way of the first set at
/// the inverse of the second multiplier, where that shortens.
fn crossed_first(
    alloc: Global,
    top: &Tuple,
    first_mult: Letter,
    first_set: LetterSet,
    second_mult: Letter,
    second_set: LetterSet,
) -> Result<Vec<Move>, OutOfMemory>
    requires first { IsCut top.now.plain.rank first_mult first_set }
    requires second { IsCut top.now.plain.rank second_mult second_set }
    requires apart { AreDisjoint first_set second_set }
    requires peak { IsPeak top.now.plain (spec.cut_move top.now.plain.rank first_mult first_set) (spec.cut_move top.now.plain.rank second_mult second_set) }
    requires other { second_mult ≢ inverse_letter first_mult }
    requires there { in_set second_set (inverse_letter first_mult) ≡ true }
    requires back { in_set first_set (inverse_letter second_mult) ≡ true }
    requires shorter { tuple_length (act top.now.plain (spec.cut_move top.now.plain.rank (inverse_letter second_mult) first_set)) < tuple_length top.now.plain }
    ensures lowered { IfOk result (λ v. IsLowered top.now.plain (spec.cut_move top.now.plain.rank first_mult first_set) (spec.cut_move top.now.plain.rank second_mult second_set) v.items) }
    ensures few { IfOk result (λ v. length v.items ≤ top.now.plain.rank * top.now.plain.rank + top.now.plain.rank + 2) }
{
    let rank = top.rank();
    let to = second_mult.inverse();
    let out = turned(first_mult, first_set);
    let into = united_without(rank, first_set, second_set, to);
    carried_way(
        alloc,
        rank,
        cut_move(rank, to, out),
        first_mult,
        to,
        cut_move(rank, second_mult, into),
    )
}

/// The way between two disjoint cuts whose sets hold the inverse of each other's multiplier: by way of the second set
/// at the inverse of the first multiplier, where the other way doesn't serve.
fn crossed_second(
    alloc: Global,
    top: &Tuple,
    first_mult: Letter,
    first_set: LetterSet,
    second_mult: Letter,
    second_set: LetterSet,
) -> Result<Vec<Move>, OutOfMemory>
    requires first { IsCut top.now.plain.rank first_mult first_set }
    requires second { IsCut top.now.plain.rank second_mult second_set }
    requires apart { AreDisjoint first_set second_set }
    requires peak { IsPeak top.now.plain (spec.cut_move top.now.plain.rank first_mult first_set) (spec.cut_move top.now.plain.rank second_mult second_set) }
    requires other { second_mult ≢ inverse_letter first_mult }
    requires there { in_set second_set (inverse_letter first_mult) ≡ true }
    requires back { in_set first_set (inverse_letter second_mult) ≡ true }
    requires longer { tuple_length top.now.plain ≤ tuple_length (act top.now.plain (spec.cut_move top.now.plain.rank (inverse_letter second_mult) first_set)) }
    ensures lowered { IfOk result (λ v. IsLowered top.now.plain (spec.cut_move top.now.plain.rank first_mult first_set) (spec.cut_move top.now.plain.rank second_mult second_set) v.items) }
    ensures few { IfOk result (λ v. length v.items ≤ top.now.plain.rank * top.now.plain.rank + top.now.plain.rank + 2) }
{
    let rank = top.rank();
    let from = first_mult.inverse();
    let out = united_without(rank, first_set, second_set, first_mult);
    let into = turned(second_mult, second_set);
    carried_way(
        alloc,
        rank,
        cut_move(rank, from, out),
        from,
        second_mult,
        cut_move(rank, from, into).inverse(),
    )
}

/// The way between two disjoint cuts whose sets hold the inverse of each other's multiplier.
fn crossed_way(
    alloc: Global,
    top: &Tuple,
    first_mult: Letter,
    first_set: LetterSet,
    second_mult: Letter,
    second_set: LetterSet,
) -> Result<Vec<Move>, OutOfMemory>
    requires first { IsCut top.now.plain.rank first_mult first_set }
    requires second { IsCut top.now.plain.rank second_mult second_set }
    requires apart { AreDisjoint first_set second_set }
    requires peak { IsPeak top.now.plain (spec.cut_move top.now.plain.rank first_mult first_set) (spec.cut_move top.now.plain.rank second_mult second_set) }
    requires other { second_mult ≢ inverse_letter first_mult }
    requires there { in_set second_set (inverse_letter first_mult) ≡ true }
    requires back { in_set first_set (inverse_letter second_mult) ≡ true }
    ensures lowered { IfOk result (λ v. IsLowered top.now.plain (spec.cut_move top.now.plain.rank first_mult first_set) (spec.cut_move top.now.plain.rank second_mult second_set) v.items) }
    ensures few { IfOk result (λ v. length v.items ≤ top.now.plain.rank * top.now.plain.rank + top.now.plain.rank + 2) }
{
    if shortens(top, second_mult.inverse(), first_set) {
        crossed_first(alloc, top, first_mult, first_set, second_mult, second_set)
    } else {
        crossed_second(alloc, top, first_mult, first_set, second_mult, second_set)
    }
}

/// The way between two disjoint cuts whose multipliers are inverse: one cut.
fn united_way(
    alloc: Global,
    top: &Tuple,
    first_mult: Letter,
    first_set: LetterSet,
    second_mult: Letter,
    second_set: LetterSet,
) -> Result<Vec<Move>, OutOfMemory>
    requires first { IsCut top.now.plain.rank first_mult first_set }
    requires second { IsCut top.now.plain.rank second_mult second_set }
    requires apart { AreDisjoint first_set second_set }
    requires peak { IsPeak top.now.plain (spec.cut_move top.now.plain.rank first_mult first_set) (spec.cut_move top.now.plain.rank second_mult second_set) }
    requires inverse { second_mult ≡ inverse_letter first_mult }
    ensures lowered { IfOk result (λ v. IsLowered top.now.plain (spec.cut_move top.now.plain.rank first_mult first_set) (spec.cut_move top.now.plain.rank second_mult second_set) v.items) }
    ensures few { IfOk result (λ v. length v.items ≤ top.now.plain.rank * top.now.plain.rank + top.now.plain.rank + 2) }
{
    let rank = top.rank();
    let united = united_without(rank, first_set, second_set, first_mult);
    one_move(alloc, cut_move(rank, first_mult.inverse(), united))
}

/// The way between two disjoint cuts whose sets don't hold the inverse of each other's multiplier: by way of the tuple
/// after both.
fn commuting_way(
    alloc: Global,
    top: &Tuple,
    first_mult: Letter,
    first_set: LetterSet,
    second_mult: Letter,
    second_set: LetterSet,
) -> Result<Vec<Move>, OutOfMemory>
    requires first { IsCut top.now.plain.rank first_mult first_set }
    requires second { IsCut top.now.plain.rank second_mult second_set }
    requires apart { AreDisjoint first_set second_set }
    requires peak { IsPeak top.now.plain (spec.cut_move top.now.plain.rank first_mult first_set) (spec.cut_move top.now.plain.rank second_mult second_set) }
    requires other { second_mult ≢ inverse_letter first_mult }
    requires there { in_set second_set (inverse_letter first_mult) ≡ false }
    requires back { in_set first_set (inverse_letter second_mult) ≡ false }
    ensures lowered { IfOk result (λ v. IsLowered top.now.plain (spec.cut_move top.now.plain.rank first_mult first_set) (spec.cut_move top.now.plain.rank second_mult second_set) v.items) }
    ensures few { IfOk result (λ v. length v.items ≤ top.now.plain.rank * top.now.plain.rank + top.now.plain.rank + 2) }
{
    let rank = top.rank();
    two_moves(
        alloc,
        cut_move(rank, second_mult, second_set),
        cut_move(rank, first_mult, first_set).inverse(),
    )
}

/// The way between two disjoint cuts of which the first set alone holds the inverse of the other multiplier.
fn widened_way(
    alloc: Global,
    top: &Tuple,
    first_mult: Letter,
    first_set: LetterSet,
    second_mult: Letter,
    second_set: LetterSet,
) -> Result<Vec<Move>, OutOfMemory>
    requires first { IsCut top.now.plain.rank first_mult first_set }
    requires second { IsCut top.now.plain.rank second_mult second_set }
    requires apart { AreDisjoint first_set second_set }
    requires peak { IsPeak top.now.plain (spec.cut_move top.now.plain.rank first_mult first_set) (spec.cut_move top.now.plain.rank second_mult second_set) }
    requires other { second_mult ≢ inverse_letter first_mult }
    requires there { in_set second_set (inverse_letter first_mult) ≡ false }
    requires back { in_set first_set (inverse_letter second_mult) ≡ true }
    ensures lowered { IfOk result (λ v. IsLowered top.now.plain (spec.cut_move top.now.plain.rank first_mult first_set) (spec.cut_move top.now.plain.rank second_mult second_set) v.items) }
    ensures few { IfOk result (λ v. length v.items ≤ top.now.plain.rank * top.now.plain.rank + top.now.plain.rank + 2) }
{
    let rank = top.rank();
    let widened = united_without(rank, first_set, second_set, second_mult);
    two_moves(
        alloc,
        cut_move(rank, second_mult, second_set),
        cut_move(rank, first_mult, widened).inverse(),
    )
}

/// The way between two disjoint cuts of which the second set alone holds the inverse of the other multiplier.
fn turned_way(
    alloc: Global,
    top: &Tuple,
    first_mult: Letter,
    first_set: LetterSet,
    second_mult: Letter,
    second_set: LetterSet,
) -> Result<Vec<Move>, OutOfMemory>
    requires first { IsCut top.now.plain.rank first_mult first_set }
    requires second { IsCut top.now.plain.rank second_mult second_set }
    requires apart { AreDisjoint first_set second_set }
    requires peak { IsPeak top.now.plain (spec.cut_move top.now.plain.rank first_mult first_set) (spec.cut_move top.now.plain.rank second_mult second_set) }
    requires other { second_mult ≢ inverse_letter first_mult }
    requires there { in_set second_set (inverse_letter first_mult) ≡ true }
    requires back { in_set first_set (inverse_letter second_mult) ≡ false }
    ensures lowered { IfOk result (λ v. IsLowered top.now.plain (spec.cut_move top.now.plain.rank first_mult first_set) (spec.cut_move top.now.plain.rank second_mult second_set) v.items) }
    ensures few { IfOk result (λ v. length v.items ≤ top.now.plain.rank * top.now.plain.rank + top.now.plain.rank + 2) }
{
    let rank = top.rank();
    let widened = united_without(rank, second_set, first_set, first_mult);
    two_moves(
        alloc,
        cut_move(rank, second_mult, widened),
        cut_move(rank, first_mult, first_set).inverse(),
    )
}

/// The way from the tuple after a cut to that after another whose set is disjoint, by shorter tuples than the top.
pub(crate) fn disjoint_way(
    alloc: Global,
    top: &Tuple,
    first_mult: Letter,
    first_set: LetterSet,
    second_mult: Letter,
    second_set: LetterSet,
) -> Result<Vec<Move>, OutOfMemory>
    requires first { IsCut top.now.plain.rank first_mult first_set }
    requires second { IsCut top.now.plain.rank second_mult second_set }
    requires apart { AreDisjoint first_set second_set }
    requires peak { IsPeak top.now.plain (spec.cut_move top.now.plain.rank first_mult first_set) (spec.cut_move top.now.plain.rank second_mult second_set) }
    ensures lowered { IfOk result (λ v. IsLowered top.now.plain (spec.cut_move top.now.plain.rank first_mult first_set) (spec.cut_move top.now.plain.rank second_mult second_set) v.items) }
    ensures few { IfOk result (λ v. length v.items ≤ top.now.plain.rank * top.now.plain.rank + top.now.plain.rank + 2) }
{
    if second_mult == first_mult.inverse() {
        return united_way(alloc, top, first_mult, first_set, second_mult, second_set);
    }
    let there = second_set.contains(first_mult.inverse());
    let back = first_set.contains(second_mult.inverse());
    if there && back {
        crossed_way(alloc, top, first_mult, first_set, second_mult, second_set)
    } else if there {
        turned_way(alloc, top, first_mult, first_set, second_mult, second_set)
    } else if back {
        widened_way(alloc, top, first_mult, first_set, second_mult, second_set)
    } else {
        commuting_way(alloc, top, first_mult, first_set, second_mult, second_set)
    }
}
