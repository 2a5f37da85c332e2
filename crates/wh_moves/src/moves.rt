//! Moves: Whitehead automorphisms of both kinds.
ghost use Rattle.std.specs.Prelude.{◌≡◌, ◌^◌, ◌<◌, ◌≤◌, ◌↔◌, ◌⊎◌, IsTrue, IsNone, IfSome};
ghost use Rattle.std.specs.Int.{bit_at};
ghost use Rattle.wh_words.specs.Limits.{most_rank};
ghost use Rattle.wh_words.specs.Letters.{inverse_letter};
ghost use Rattle.wh_words.specs.Moves.{IsMove, IsCut, IsIdentityCut, cut_move, turned_set, inverse_move};
ghost use Rattle.wh_words.specs.Moves.Kind.{swap, invert};
ghost use Rattle.wh_moves.specs.Kinds.{kind_of};
ghost use Rattle.wh_moves.specs.Packing.{unpacked, packed, kind_of_code};

use std::marker::Model;
use wh_words::{Letter, LetterSet, Rank};

/// What a move does. Generators are numbered from 1.
#[derive(Clone, Copy, PartialEq, Eq, Debug)]
pub enum Kind {
    /// Exchanges generators `k` and `k + 1`.
    Swap(u8),
    /// Inverts generator `k`.
    Invert(u8),
    /// Multiplies letters by the multiplier: before or behind a letter, or both, as the set says.
    Cut { mult: Letter, set: LetterSet },
}

/// A move of a rank. Swaps and inversions are of the first kind, and generate all permutations of letters that commute
/// with inversion; cuts are of the second (Lyndon and Schupp, I.4). Contracts see the rank and the kind. A move lies in
/// one number, so that lists of moves are short: from the highest bits to the lowest its rank, a code and a generator or a
/// set. Moves are ordered as these numbers are: by rank, then swaps, inversions and cuts, each by its generator, or by its
/// multiplier and its set.
#[derive(Clone, Copy, Debug)]
pub struct Move {
    number: u64,
}

impl Model for Move {
    ghost use Rattle.std.proofs.Common.{ap};
    ghost use Rattle.wh_words.specs.Moves as spec;
    ghost use Rattle.wh_words.specs.Moves.{IsMove};
    ghost use Rattle.wh_moves.specs.Packing.{unpacked, packed, packed_back};

    ghost Value = { spec.Move };

    ghost view = { λ m. unpacked m.number };

    ghost inverse = { λ m. record { number = packed m } };

    ghost inverse_ok = { λ a h. ap (λ n. record { number = n }) (packed_back a.number) };

    ghost invariant = { λ m. IsMove (unpacked m.number) };
}

/// How many numbers there are for a generator or a set, which stands in the lowest bits.
const SETS: u64 = 1 << 52;

/// How many codes there are. The code stands above the set, and the rank above the code.
const CODES: u64 = 64;

/// The code of a swap.
const SWAP: u8 = 0;

/// The code of an inversion.
const INVERT: u8 = 1;

/// The code of a cut whose multiplier is the first letter. Those of the other letters follow.
const CUT: u8 = 2;

/// The number of the move of a rank with a code and a generator or a set.
#[tactic(auto, using(crate::proofs::PackedOrder::packed_is))]
fn packed(rank: Rank, code: u8, rest: u64) -> u64
    requires code { code < 64 }
    requires rest { rest < 2 ^ 52 }
    ensures { unpacked result ≡ record { rank = rank; kind = kind_of_code code rest } }
{
    (rank.get() as u64 * CODES + code as u64) * SETS + rest
}

/// A set that holds a letter and not its inverse, with the inverse in the letter's place.
fn turned(set: LetterSet, letter: Letter) -> LetterSet
    requires holds { bit_at set letter ≡ 1 }
    requires omits { bit_at set (inverse_letter letter) ≡ 0 }
    ensures { result ≡ turned_set letter set }
{
    set.with(letter.inverse()).without(letter)
}

/// Whether the letter is of the rank and in the set, its inverse isn't, and the set has letters of the rank alone.
fn is_cut(rank: Rank, mult: Letter, set: LetterSet) -> bool
    ensures is { IsTrue result ↔ IsCut rank mult set }
    ensures within { rank ≤ most_rank }
{
    mult.index() < 2 * rank.get()
        && set.bits() >> (2 * rank.get()) == 0
        && set.contains(mult)
        && !set.contains(mult.inverse())
}

impl Move {
    /// The exchange of generators `k` and `k + 1`. None exactly where `k` is 0 or not below the rank.
    pub fn swap(rank: Rank, k: u8) -> Option<Move>
        ensures none { IsNone result ↔ ((k ≡ 0) ⊎ (rank ≤ k)) }
        ensures some { IfSome result (λ m. m ≡ record { rank = rank; kind = swap k }) }
    {
        if k == 0 || k >= rank.get() {
            None
        } else {
            Some(Move {
                number: packed(rank, SWAP, k as u64),
            })
        }
    }

    /// The inversion of generator `k`. None exactly where `k` is 0 or above the rank.
    pub fn invert(rank: Rank, k: u8) -> Option<Move>
        ensures none { IsNone result ↔ ((k ≡ 0) ⊎ (rank < k)) }
        ensures some { IfSome result (λ m. m ≡ record { rank = rank; kind = invert k }) }
    {
        if k == 0 || k > rank.get() {
            None
        } else {
            Some(Move {
                number: packed(rank, INVERT, k as u64),
            })
        }
    }

    /// The cut with a multiplier and a set. None exactly where the multiplier isn't of the rank or isn't in the set, its
    /// inverse is in the set, or the set has a letter past the rank.
    pub fn cut(rank: Rank, mult: Letter, set: LetterSet) -> Option<Move>
        ensures none { IsNone result ↔ ¬ (IsCut rank mult set) }
        ensures some { IfSome result (λ m. m ≡ cut_move rank mult set) }
        ensures valid { IfSome result (λ _. IsCut rank mult set) }
    {
        if is_cut(rank, mult, set) {
            Some(Move {
                number: packed(rank, CUT + mult.index(), set.bits()),
            })
        } else {
            None
        }
    }

    /// The number that the move lies in.
    pub(crate) fn number(self) -> u64
        ensures number { result ≡ packed self }
        ensures moves { unpacked result ≡ self }
    {
        self.number
    }

    /// What the move does.
    pub fn kind(&self) -> Kind
        ensures kind { kind_of result ≡ self.now.kind }
        ensures valid { IsMove self.now }
    {
        let code = (self.number / SETS % CODES) as u8;
        let rest = self.number % SETS;
        match code {
            SWAP => Kind::Swap(rest as u8),
            INVERT => Kind::Invert(rest as u8),
            _ => Kind::Cut {
                mult: Letter::of_index(code - CUT),
                set: LetterSet::of_bits(rest),
            },
        }
    }

    /// The rank of the group that it moves.
    pub fn rank(&self) -> Rank
        ensures rank { result ≡ self.now.rank }
        ensures valid { IsMove self.now }
    {
        Rank::of_number((self.number / SETS / CODES) as u8)
    }

    /// The inverse of the move. Swaps and inversions are their own inverses; the inverse of a cut (A, a) is the cut
    /// (A - a + a', a') (Lyndon and Schupp, I.4).
    pub fn inverse(&self) -> Move
        ensures { result ≡ inverse_move self.now }
    {
        match self.kind() {
            Kind::Cut { mult, set } => Move {
                number: packed(
                    self.rank(),
                    CUT + mult.inverse().index(),
                    turned(set, mult).bits(),
                ),
            },
            Kind::Swap(_) | Kind::Invert(_) => *self,
        }
    }

    /// Whether the move is an identity cut, whose set has the multiplier alone.
    pub fn is_identity(&self) -> bool
        ensures { IsTrue result ↔ IsIdentityCut self.now.kind }
    {
        match self.kind() {
            Kind::Cut { mult, set } => set.bits() == 1 << mult.index(),
            Kind::Swap(_) | Kind::Invert(_) => false,
        }
    }
}
