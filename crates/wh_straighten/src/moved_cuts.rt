//! The cut that a swap or an inversion takes a cut to.
ghost use Rattle.std.specs.Prelude.{◌≡◌, ◌≢◌, ℕ, ◌*◌, ◌^◌, ◌<◌, cond};
ghost use Rattle.std.specs.Int.{bit_at};
ghost use Rattle.wh_words.specs.LetterSets.{in_set};
ghost use Rattle.wh_words.specs.Moves.{IsCut};
ghost use Rattle.wh_composites.specs.SignedPerms.{letter_map, IsTurn};
ghost use Rattle.wh_peak.specs.Relations.{HasLetters};
ghost use Rattle.wh_straighten.specs.Lowering.{IsMovedCut};

use crate::making::cut_move;
use wh_moves::{Kind, Move};
use wh_words::{Letter, LetterSet, Rank};

/// The letter that a swap or an inversion takes a letter to.
fn letter_after(turn: &Move, x: Letter) -> Letter
    ensures { result ≡ letter_map turn.now.kind x }
{
    match turn.kind() {
        Kind::Swap(k) => x.swapped(k),
        Kind::Invert(k) => x.inverted(k),
        Kind::Cut { .. } => x,
    }
}

/// A set with a letter, where it is to hold it.
fn with_if(set: LetterSet, letter: Letter, holds: bool) -> LetterSet
    ensures letter { bit_at result letter ≡ cond holds 1 (bit_at set letter) }
    ensures others { (i : ℕ) → i ≢ letter → bit_at result i ≡ bit_at set i }
{
    if holds { set.with(letter) } else { set }
}

/// The letters of a rank that a swap or an inversion takes into a set.
fn moved_set(rank: Rank, turn: &Move, set: LetterSet) -> LetterSet
    ensures letters { HasLetters rank result (λ x. in_set set (letter_map turn.now.kind x)) }
    ensures within { result < 2 ^ (2 * rank) }
{
    let mut moved = LetterSet::empty();
    for index in 0..2 * rank.get() {
        let x = Letter::of_index(index);
        moved = with_if(moved, x, set.contains(letter_after(turn, x)));
    }
    moved
}

/// The cut that a swap or an inversion takes a cut to.
pub(crate) fn moved_cut(turn: &Move, mult: Letter, set: LetterSet) -> Move
    requires turn { IsTurn turn.now.rank turn.now.kind }
    requires cut { IsCut turn.now.rank mult set }
    ensures { IsMovedCut turn.now.rank turn.now.kind mult set result }
{
    let rank = turn.rank();
    cut_move(rank, letter_after(turn, mult), moved_set(rank, turn, set))
}
