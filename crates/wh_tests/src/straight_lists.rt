//! Straight lists of moves.
ghost use Rattle.std.specs.Prelude.{◌≡◌, IfOk};
ghost use Rattle.std.specs.List.{All};

use crate::support::{cut, leads_by_letters, rank, tuple};
use std::alloc::Global;
use std::test::Fail;
use wh_moves::Move;
use wh_straighten::{StraightenError, straighten};
use wh_words::Tuple;

/// Moves that take a to ab, abb and a word of five letters, and back to a by other words.
fn over_five_letters() -> Result<[Move; 6], Fail>
    ensures { IfOk result (λ ms. All (λ m. m.rank ≡ 2) ms) }
{
    let up = cut(rank(2), b'b', 0b0101)?;
    let across = cut(rank(2), b'a', 0b0101)?;
    let down = cut(rank(2), b'B', 0b1001)?;
    let back = cut(rank(2), b'A', 0b0110)?;
    Ok([up, across, up, down, back, down])
}

/// Whether the list in the place of these keeps to one letter.
fn keeps_to_one_letter(alloc: Global, from: &Tuple) -> Result<bool, Fail> {
    if from.rank() != rank(2) {
        return Ok(false);
    }
    let straight = straighten(alloc, from, &over_five_letters()?)?;
    leads_by_letters(alloc, from, &straight, "a")
}

/// The same from the letter a.
fn a_keeps_to_one_letter(alloc: Global) -> Result<bool, Fail> {
    let from = tuple(alloc, "rank 2\ntuple a\n")?;
    keeps_to_one_letter(alloc, &from)
}

#[test]
fn a_list_over_five_letters_is_straightened_by_single_letters(rt: HostRuntime) -> Result<(), Fail> {
    assert!(rt; a_keeps_to_one_letter(rt.alloc())?);
    Ok(())
}

/// Whether of an identity cut and a move that lengthens a tuple the move is left.
fn leaves_the_move(alloc: Global, from: &Tuple, stays: Move, up: Move) -> Result<bool, Fail> {
    if stays.rank() != from.rank() || up.rank() != from.rank() {
        return Ok(false);
    }
    let straight = straighten(alloc, from, &[stays, up])?;
    Ok(straight.len() == 1 && straight[0] == up)
}

/// The same for the letter a.
fn a_leaves_the_move(alloc: Global) -> Result<bool, Fail> {
    let from = tuple(alloc, "rank 2\ntuple a\n")?;
    leaves_the_move(
        alloc,
        &from,
        cut(rank(2), b'a', 0b0001)?,
        cut(rank(2), b'b', 0b0101)?,
    )
}

#[test]
fn a_straight_list_stays_but_for_identity_cuts(rt: HostRuntime) -> Result<(), Fail> {
    assert!(rt; a_leaves_the_move(rt.alloc())?);
    Ok(())
}

/// A power of the letter a, of rank 2.
fn power(alloc: Global, exponent: u32) -> Result<Tuple, Fail> {
    let mut text = String::new(alloc);
    text.push_str("rank 2\ntuple ")?;
    for _ in 0..exponent {
        text.push_str("a")?;
    }
    text.push_str("\n")?;
    tuple(alloc, &text)
}

/// Whether a list of one move is refused, since it makes a tuple of 4,098 letters.
fn is_refused(alloc: Global, from: &Tuple, up: Move) -> bool {
    from.rank() == up.rank()
        && straighten(alloc, from, &[up])
            == Err(StraightenError::TooLong {
                place: 1,
                length: 4098,
            })
}

/// The same for a power of a.
fn a_power_is_refused(alloc: Global) -> Result<bool, Fail> {
    let from = power(alloc, 2049)?;
    Ok(is_refused(alloc, &from, cut(rank(2), b'b', 0b0101)?))
}

#[test]
fn a_list_whose_way_is_too_long_is_refused(rt: HostRuntime) -> Result<(), Fail> {
    assert!(rt; a_power_is_refused(rt.alloc())?);
    Ok(())
}
