//! Composites of lists of moves, and permutations of letters as lists of moves.
use crate::support::{cut, rank};
use std::alloc::Global;
use std::test::Fail;
use wh_composites::{SignedPerm, compose, perm_word};
use wh_moves::Move;
use wh_words::Letter;

/// Whether the composite of two moves of rank 2 is the identity.
fn cancel(alloc: Global, first: Move, second: Move) -> Result<bool, Fail> {
    let rank = rank(2);
    if first.rank() != rank || second.rank() != rank {
        return Ok(false);
    }
    Ok(compose(alloc, rank, &[first, second])?.is_identity())
}

#[test]
fn inner_cuts_of_a_letter_and_its_inverse_cancel(rt: HostRuntime) -> Result<(), Fail> {
    let inner = cut(rank(2), b'a', 0b1001)?;
    let back = cut(rank(2), b'A', 0b1010)?;
    assert!(rt; cancel(rt.alloc(), inner, back)?);
    Ok(())
}

/// Whether the permutation of rank 2 that carries a to b is written as two moves.
fn carried_by(alloc: Global, first: Move, second: Move) -> Result<bool, Fail> {
    let carry = SignedPerm::carry(rank(2), Letter::of_index(0), Letter::of_index(2));
    let word = perm_word(alloc, &carry)?;
    Ok(word.len() == 2 && word[0] == first && word[1] == second)
}

#[test]
fn a_letter_is_carried_to_another_by_a_swap_and_an_inversion(rt: HostRuntime) -> Result<(), Fail> {
    let swap = Move::swap(rank(2), 1).ok_or("swap")?;
    let invert = Move::invert(rank(2), 1).ok_or("invert")?;
    assert!(rt; carried_by(rt.alloc(), swap, invert)?);
    Ok(())
}
