//! Sets of letters made of others.
ghost use Rattle.std.specs.Prelude.{◌≡◌, ◌*◌, ◌^◌, ◌<◌, ◌≤◌};
ghost use Rattle.std.specs.Int.{bit_at};
ghost use Rattle.wh_words.specs.Limits.{most_stabiliser_rank};
ghost use Rattle.wh_words.specs.Letters.{inverse_letter};
ghost use Rattle.wh_words.specs.Moves.{turned_set};
ghost use Rattle.wh_words.specs.Images.{swap_letter, invert_letter};
ghost use Rattle.wh_relators.specs.Cuts as spec;
ghost use Rattle.wh_relators.specs.Families.{are_apart, meet_in};

use wh_graph::count_sets;
use wh_words::{Letter, LetterSet, Rank};

/// The letters of two sets.
#[tactic(auto, using(crate::proofs::SetWords::union_is))]
pub(crate) fn union(rank: Rank, a: LetterSet, b: LetterSet) -> LetterSet
    requires first { a < 2 ^ (2 * rank) }
    requires second { b < 2 ^ (2 * rank) }
    ensures { result ≡ spec.union rank a b }
{
    LetterSet::of_bits(a.bits() | b.bits())
}

/// Whether no letter is in both sets.
#[tactic(auto, using(crate::proofs::SetWords::apart_is))]
pub(crate) fn are_apart(rank: Rank, a: LetterSet, b: LetterSet) -> bool
    requires first { a < 2 ^ (2 * rank) }
    ensures { result ≡ are_apart rank a b }
{
    a.bits() & b.bits() == 0
}

/// Whether two sets have one letter, and no other in common.
pub(crate) fn meet_in(rank: Rank, letter: Letter, a: LetterSet, b: LetterSet) -> bool
    requires first { a < 2 ^ (2 * rank) }
    requires letter { letter < 2 * rank }
    requires few { rank ≤ most_stabiliser_rank }
    ensures { result ≡ meet_in rank letter a b }
{
    a.bits() & b.bits() == count_sets(letter.index()) as u64
}

/// The letters of the rank that are not in a set.
pub(crate) fn others(rank: Rank, a: LetterSet) -> LetterSet
    ensures { result ≡ spec.others rank a }
{
    a.complement(rank)
}

/// The letters of two sets without one letter.
pub(crate) fn union_less(rank: Rank, a: LetterSet, b: LetterSet, letter: Letter) -> LetterSet
    requires first { a < 2 ^ (2 * rank) }
    requires second { b < 2 ^ (2 * rank) }
    ensures { result ≡ spec.union_less rank a b letter }
{
    others(rank, others(rank, union(rank, a, b)).with(letter))
}

/// All letters of the rank but one.
pub(crate) fn all_but(rank: Rank, letter: Letter) -> LetterSet
    ensures { result ≡ spec.all_but rank letter }
{
    others(rank, LetterSet::empty().with(letter))
}

/// A set that holds a letter and not its inverse, with the inverse in the letter's place.
pub(crate) fn turned(letter: Letter, set: LetterSet) -> LetterSet
    requires holds { bit_at set letter ≡ 1 }
    requires omits { bit_at set (inverse_letter letter) ≡ 0 }
    ensures { result ≡ turned_set letter set }
{
    set.with(letter.inverse()).without(letter)
}

/// The letters that the swap of generators `k` and `k + 1` takes those of a set to.
pub(crate) fn swap_letters(rank: Rank, k: u8, set: LetterSet) -> LetterSet
    requires least { 0 < k }
    requires below { k < rank }
    ensures { result ≡ spec.mapped rank (swap_letter k) set }
{
    let mut rest = LetterSet::empty();
    for index in 0..2 * rank.get() {
        let letter = Letter::of_index(index);
        if !set.contains(letter.swapped(k)) {
            rest = rest.with(letter);
        }
    }
    others(rank, rest)
}

/// The letters that the inversion of generator `k` takes those of a set to.
pub(crate) fn invert_letters(rank: Rank, k: u8, set: LetterSet) -> LetterSet
    ensures { result ≡ spec.mapped rank (invert_letter k) set }
{
    let mut rest = LetterSet::empty();
    for index in 0..2 * rank.get() {
        let letter = Letter::of_index(index);
        if !set.contains(letter.inverted(k)) {
            rest = rest.with(letter);
        }
    }
    others(rank, rest)
}
