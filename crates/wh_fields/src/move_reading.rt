//! Reading of moves.
ghost use Rattle.std.specs.Prelude.{◌≡◌, ◌≤◌, ◌<◌, ◌*◌};
ghost use Rattle.wh_words.specs.Limits.{most_rank};
ghost use Rattle.wh_lines.specs.Readings.{Gives};
ghost use Rattle.wh_fields.specs.MoveFields as spec;
ghost use Rattle.wh_fields.specs.MoveFields.{set_from, kind_in, move_with, move_at, moves_at};

use crate::letter::letter_of;
use std::alloc::Global;
use wh_lines::{Field, ReadError, canonical_number};
use wh_moves::Move;
use wh_words::{Letter, LetterSet, List, Rank};

/// A letter, where there is one whose index is at least `least`.
fn letter_from(least: u8, letter: Option<Letter>) -> Option<Letter>
    ensures { result ≡ spec.letter_from least letter }
{
    match letter {
        Some(x) if least <= x.index() => Some(x),
        _ => None,
    }
}

/// The mask of the letters of rank `n` that bytes spell. None where a byte is no letter, or they don't rise.
#[tactic(auto, using(crate::proofs::LetterMasks::set_end))]
fn mask_of(n: u8, bytes: &[u8]) -> Option<u64>
    requires { n ≤ most_rank }
    ensures { result ≡ set_from n 0 0 bytes.now }
{
    let mut mask = 0;
    let mut least = 0;
    for byte in bytes {
        match letter_from(least, letter_of(n, *byte)) {
            Some(x) => {
                mask |= 1 << x.index();
                least = x.index() + 1;
            }
            None => return None,
        }
    }
    Some(mask)
}

/// The swap of a number.
fn swap_of(rank: Rank, number: Option<u64>) -> Option<Move>
    ensures { result ≡ move_with rank (spec.swap_of rank number) }
{
    match number {
        Some(k) if k > 0 && k < rank.get() as u64 => Move::swap(rank, k as u8),
        _ => None,
    }
}

/// The inversion of a number.
fn invert_of(rank: Rank, number: Option<u64>) -> Option<Move>
    ensures { result ≡ move_with rank (spec.invert_of rank number) }
{
    match number {
        Some(k) if k > 0 && k <= rank.get() as u64 => Move::invert(rank, k as u8),
        _ => None,
    }
}

/// The cut with a multiplier and the letters that bytes spell.
fn cut_of(rank: Rank, bytes: &[u8], mult: Option<Letter>) -> Option<Move>
    ensures { result ≡ move_with rank (spec.cut_of rank bytes.now mult) }
{
    let mult = mult?;
    let mask = mask_of(rank.get(), bytes)?;
    Move::cut(rank, mult, LetterSet::of_bits(mask))
}

/// The move of a rank that the bytes of a field tell: a letter, `:` and a set of letters that rise, with the letter and
/// without its inverse; or `s` or `i` and a number.
#[tactic(auto, unfolding(crate::specs::MoveFields::kind_in))]
pub(crate) fn move_of(rank: Rank, bytes: &[u8]) -> Option<Move>
    ensures { result ≡ move_with rank (kind_in rank bytes.now) }
{
    let [first, rest @ ..] = bytes else {
        return None;
    };
    let [second, letters @ ..] = rest else {
        return None;
    };
    if *second == b':' {
        cut_of(rank, letters, letter_of(rank.get(), *first))
    } else if *first == b's' {
        swap_of(rank, canonical_number(rest))
    } else if *first == b'i' {
        invert_of(rank, canonical_number(rest))
    } else {
        None
    }
}

/// The move of a field. BadMove comes where it tells none.
fn read_move(rank: Rank, line: u64, field: &Field) -> Result<Move, ReadError>
    ensures { Gives (λ m. m) result (move_at rank line field.now) }
{
    match move_of(rank, field.bytes()) {
        Some(m) => Ok(m),
        None => Err(ReadError::BadMove {
            line,
            column: field.column() as u64,
        }),
    }
}

/// The moves of fields. BadMove names the leftmost field that is no move of the rank.
#[tactic(auto, using(wh_lines::proofs::ItemReadings::items_end))]
pub fn read_moves(
    alloc: Global,
    rank: Rank,
    line: u64,
    fields: &[Field],
) -> Result<List<Move>, ReadError>
    ensures { Gives (λ v. v) result (moves_at rank line fields.now) }
{
    let mut out = Vec::new(alloc);
    for field in fields {
        let m = read_move(rank, line, field)?;
        out.push(m)?;
    }
    Ok(List::of(out))
}
