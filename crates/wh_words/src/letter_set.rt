//! Sets of letters.
ghost use Rattle.std.specs.Prelude.{◌≡◌, ◌≢◌, ℕ, ◌-◌, ◌*◌, ◌^◌, ◌<◌, ◌↔◌, IsTrue};
ghost use Rattle.std.specs.Int.{bit_at};
ghost use Rattle.wh_words.specs.LetterSets.{in_set};

use crate::letter::Letter;
use crate::rank::Rank;
use std::marker::Model;

/// A set of letters, as a mask: each letter has the bit at its index. Contracts see the mask. Sets are ordered by it.
#[derive(Clone, Copy, PartialEq, Eq, PartialOrd, Ord, Hash, Debug)]
pub struct LetterSet {
    bits: u64,
}

impl Model for LetterSet {
    ghost use Rattle.std.specs.Prelude.{ℕ};

    ghost Value = { ℕ };

    ghost view = { λ s. s.bits };

    ghost inverse = { λ n. record { bits = n } };
}

impl LetterSet {
    /// The set without letters.
    pub fn empty() -> LetterSet
        ensures { result ≡ 0 }
    {
        LetterSet { bits: 0 }
    }

    /// The set of a mask.
    pub fn of_bits(bits: u64) -> LetterSet
        ensures { result ≡ bits }
    {
        LetterSet { bits }
    }

    /// The mask.
    pub fn bits(self) -> u64
        ensures { result ≡ self }
    {
        self.bits
    }

    /// Whether a letter is in the set.
    pub fn contains(self, letter: Letter) -> bool
        ensures holds { IsTrue result ↔ (bit_at self letter ≡ 1) }
        ensures value { result ≡ in_set self letter }
    {
        (self.bits >> letter.index()) & 1 == 1
    }

    /// The set with a letter.
    pub fn with(self, letter: Letter) -> LetterSet
        ensures same { bit_at result letter ≡ 1 }
        ensures others { (i : ℕ) → i ≢ letter → bit_at result i ≡ bit_at self i }
    {
        LetterSet {
            bits: self.bits | 1 << letter.index(),
        }
    }

    /// The set without a letter.
    pub fn without(self, letter: Letter) -> LetterSet
        ensures same { bit_at result letter ≡ 0 }
        ensures others { (i : ℕ) → i < 64 → i ≢ letter → bit_at result i ≡ bit_at self i }
    {
        LetterSet {
            bits: self.bits & !(1 << letter.index()),
        }
    }

    /// The letters of a rank that aren't in the set.
    pub fn complement(self, rank: Rank) -> LetterSet
        ensures within { (i : ℕ) → i < 2 * rank → bit_at result i ≡ 1 - bit_at self i }
        ensures below { result < 2 ^ (2 * rank) }
    {
        LetterSet {
            bits: !self.bits & ((1 << (2 * rank.get())) - 1),
        }
    }
}
