//! Moves, their images and their action.
ghost use Rattle.std.specs.Prelude.{◌≡◌, ◌≤◌};
ghost use Rattle.wh_words.specs.Limits.{most_letters};

use crate::support::{are_spelled, cut, has_words, letter, rank, tuple};
use std::alloc::Global;
use std::test::Fail;
use wh_moves::{Images, Move, act, act_all, act_into, acted_length, images};
use wh_words::{LetterSet, Tuple, Word};

#[test]
fn cuts_hold_their_multiplier_alone_of_its_generator(rt: HostRuntime) -> Result<(), Fail> {
    let rank = rank(2);
    let a = letter(b'a')?;
    let both = LetterSet::empty().with(a).with(a.inverse());
    assert!(rt; Move::cut(rank, a, both).is_none());
    assert!(rt; cut(rank, b'a', 1)?.is_identity());
    assert!(rt; Move::swap(rank, 2).is_none());
    assert!(rt; Move::invert(rank, 2).is_some());
    Ok(())
}

#[test]
fn moves_are_ordered_by_kind(rt: HostRuntime) -> Result<(), Fail> {
    let rank = rank(2);
    let swap = Move::swap(rank, 1).ok_or("swap")?;
    let invert = Move::invert(rank, 1).ok_or("invert")?;
    let cut = cut(rank, b'a', 5)?;
    assert!(rt; swap < invert);
    assert!(rt; invert < cut);
    Ok(())
}

/// Whether texts spell words, one by one.
fn spell(words: &[Word], texts: &[&str]) -> bool {
    if words.len() != texts.len() {
        return false;
    }
    for k in 0..words.len() {
        if !are_spelled(words[k].letters(), texts[k]) {
            return false;
        }
    }
    true
}

/// Whether texts spell the images of the generators.
fn images_are(alloc: Global, m: &Move, texts: &[&str]) -> Result<bool, Fail> {
    let made = images(alloc, m)?;
    Ok(spell(made.words(), texts))
}

/// Whether all generators are their own images.
fn images_stay(alloc: Global, m: &Move) -> Result<bool, Fail> {
    let made = images(alloc, m)?;
    Ok(made.is_identity())
}

/// Whether a move has these images.
fn has_images(alloc: Global, m: &Move, made: &Images) -> Result<bool, Fail> {
    let own = images(alloc, m)?;
    Ok(own == *made)
}

/// Whether two moves have the same images.
fn have_same_images(alloc: Global, one: &Move, other: &Move) -> Result<bool, Fail> {
    let made = images(alloc, one)?;
    has_images(alloc, other, &made)
}

/// Whether texts spell the images of a cut, whether these are the generators, and whether two moves have the same images.
fn cut_images(alloc: Global, cut: &Move, swap: &Move) -> Result<[bool; 4], Fail> {
    Ok([
        images_are(alloc, cut, &["a", "Ab", "ca"])?,
        images_stay(alloc, cut)?,
        have_same_images(alloc, cut, swap)?,
        have_same_images(alloc, cut, cut)?,
    ])
}

#[test]
fn images_are_those_of_the_generators(rt: HostRuntime) -> Result<(), Fail> {
    // a: a, B and c are in the set, so b goes to Ab and c to ca.
    let cut = cut(rank(3), b'a', 1 + 8 + 16)?;
    let swap = Move::swap(rank(3), 1).ok_or("swap")?;
    let seen = cut_images(rt.alloc(), &cut, &swap)?;
    assert_eq!(rt; seen, [true, false, false, true]);
    Ok(())
}

#[test]
fn the_images_of_an_identity_cut_are_the_generators(rt: HostRuntime) -> Result<(), Fail> {
    let alone = cut(rank(3), b'a', 1)?;
    assert!(rt; images_stay(rt.alloc(), &alone)?);
    Ok(())
}

/// Whether the words after a move of its rank are these, and how much room their tuple has.
fn made_by(alloc: Global, tuple: &Tuple, m: &Move, words: &[&str]) -> Result<(bool, usize), Fail>
    requires { tuple.now.plain.rank ≡ m.now.rank }
{
    let made = act(alloc, tuple, m)?;
    Ok((
        has_words(&made, words) && made.rank() == tuple.rank(),
        made.room(),
    ))
}

/// How many letters a tuple has after a cut by a, whether its words are then these, and how much room it has.
fn cut_seen(alloc: Global, tuple: &Tuple, words: &[&str]) -> Result<(u32, bool, usize), Fail> {
    let cut = cut(tuple.rank(), b'a', 9)?;
    let (has, room) = made_by(alloc, tuple, &cut, words)?;
    Ok((acted_length(tuple, &cut), has, room))
}

/// The same for a tuple of three words.
fn three_cut(alloc: Global) -> Result<(u32, bool, usize), Fail> {
    let tuple = tuple(alloc, "rank 2\ntuple ab abAB 1\n")?;
    cut_seen(alloc, &tuple, &["b", "abAB", ""])
}

#[test]
fn a_cut_acts_on_each_word(rt: HostRuntime) -> Result<(), Fail> {
    assert_eq!(rt; three_cut(rt.alloc())?, (5, true, 5));
    Ok(())
}

/// The room of a tuple, whether its copy is the same, and the room of the copy.
fn copy_seen(alloc: Global, tuple: &Tuple) -> Result<(usize, bool, usize), Fail> {
    let copy = tuple.copy(alloc)?;
    Ok((tuple.room(), copy.same(tuple), copy.room()))
}

/// Puts into a tuple what a cut by a makes of another one, and tells whether there was room for it.
fn put_cut(tuple: &Tuple, into: &mut Tuple) -> Result<bool, Fail>
    requires { into.old.room ≤ most_letters }
{
    let cut = cut(tuple.rank(), b'a', 9)?;
    if acted_length(tuple, &cut) as usize > into.room() {
        return Ok(false);
    }
    if tuple.count() > into.word_room() {
        return Ok(false);
    }
    act_into(tuple, &cut, into);
    Ok(true)
}

/// What is seen of a tuple that a cut by a was put into: whether it is the one word b, and then its rooms and its copy's.
type PutSeen = (bool, (usize, bool, usize));

/// Puts into a tuple what a cut by a makes of another one, and tells what is then seen of it.
fn put_into(alloc: Global, tuple: &Tuple, into: &mut Tuple) -> Result<PutSeen, Fail>
    requires { into.old.room ≤ most_letters }
{
    let put = put_cut(tuple, into)?;
    let has = put && has_words(into, &["b"]) && into.rank() == tuple.rank();
    Ok((has, copy_seen(alloc, into)?))
}

/// The same in a tuple that has all the room that there may be.
fn put_seen(alloc: Global, tuple: &Tuple) -> Result<PutSeen, Fail> {
    let mut into = Tuple::with_room(alloc, tuple.rank(), 64, 4096)?;
    put_into(alloc, tuple, &mut into)
}

/// The same for the tuple of the one word ab.
fn one_put(alloc: Global) -> Result<PutSeen, Fail> {
    let tuple = tuple(alloc, "rank 2\ntuple ab\n")?;
    put_seen(alloc, &tuple)
}

#[test]
fn a_tuple_is_made_in_the_room_of_another(rt: HostRuntime) -> Result<(), Fail> {
    assert_eq!(rt; one_put(rt.alloc())?, (true, (4096, true, 1)));
    Ok(())
}

/// Whether the inverse of a move leads from a tuple back to another one.
fn leads_back(alloc: Global, made: &Tuple, m: &Move, tuple: &Tuple) -> Result<bool, Fail> {
    let inverse = m.inverse();
    if made.rank() != inverse.rank() {
        return Ok(false);
    }
    let back = act(alloc, made, &inverse)?;
    Ok(back.same(tuple))
}

/// Whether a move of its rank makes these words of a tuple, and its inverse leads back.
fn gives(alloc: Global, tuple: &Tuple, m: &Move, words: &[&str]) -> Result<bool, Fail>
    requires { tuple.now.plain.rank ≡ m.now.rank }
{
    let made = act(alloc, tuple, m)?;
    if made.rank() != tuple.rank() || !has_words(&made, words) {
        return Ok(false);
    }
    leads_back(alloc, &made, m, tuple)
}

/// Whether a cut makes these words of words that are empty, one letter or powers of its multiplier.
fn cut_gives(alloc: Global, mult: u8, set: u64, words: &[&str]) -> Result<bool, Fail> {
    let tuple = tuple(alloc, "rank 3\ntuple 1 a A aaa b aB aab bc\n")?;
    let cut = cut(tuple.rank(), mult, set)?;
    gives(alloc, &tuple, &cut, words)
}

/// Whether cuts, told by multiplier and set, make these words of them.
fn cuts_give(alloc: Global, cases: &[(u8, u64, [&str; 8])]) -> Result<bool, Fail> {
    for (mult, set, words) in cases {
        if !cut_gives(alloc, *mult, *set, words)? {
            return Ok(false);
        }
    }
    Ok(true)
}

const SAME: [&str; 8] = ["", "a", "A", "aaa", "b", "aB", "aab", "bc"];

const CASES: [(u8, u64, [&str; 8]); 5] = [
    // The identity cut, and conjugation.
    (b'a', 1, SAME),
    (b'a', 61, SAME),
    // b and c are multiplied by a; then b is conjugated by itself; then B is multiplied by A.
    (b'a', 21, ["", "a", "A", "aaa", "ab", "B", "aaab", "abac"]),
    (b'b', 7, SAME),
    (b'A', 10, ["", "a", "A", "aaa", "ab", "B", "aaab", "abc"]),
];

#[test]
fn cuts_act_on_degenerate_words(rt: HostRuntime) -> Result<(), Fail> {
    assert!(rt; cuts_give(rt.alloc(), &CASES)?);
    Ok(())
}

/// Whether a text spells what two moves make of a tuple, one after the other.
fn two_give(
    alloc: Global,
    tuple: &Tuple,
    first: Move,
    second: Move,
    text: &str,
) -> Result<bool, Fail> {
    if first.rank() != tuple.rank() {
        return Ok(false);
    }
    if second.rank() != tuple.rank() {
        return Ok(false);
    }
    let made = act_all(alloc, tuple, &[first, second])?;
    Ok(are_spelled(made.letters(), text))
}

/// Whether a text spells what two moves make of the word ab.
fn ab_becomes(alloc: Global, first: Move, second: Move, text: &str) -> Result<bool, Fail> {
    let tuple = tuple(alloc, "rank 2\ntuple ab\n")?;
    two_give(alloc, &tuple, first, second, text)
}

#[test]
fn lists_of_moves_act_one_after_the_other(rt: HostRuntime) -> Result<(), Fail> {
    let swap = Move::swap(rank(2), 1).ok_or("swap")?;
    let invert = Move::invert(rank(2), 2).ok_or("invert")?;
    assert!(rt; ab_becomes(rt.alloc(), swap, invert, "aB")?);
    Ok(())
}
