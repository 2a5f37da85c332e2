//! What the tests share: words, tuples and moves from their spelling, and devices over memory.
//!
//! A test asserts once, of what a function saw that owned what it looked at and let it go. Where owners of memory are alive
//! at an assertion or at a `?`, the test takes the checker minutes.
ghost use Rattle.std.specs.Prelude.{◌≡◌, ◌<◌, ◌≤◌, IfOk};
ghost use Rattle.wh_words.specs.Limits.{most_rank};

use std::alloc::Global;
use std::test::Fail;
use wh_io::{MemSink, MemSource};
use wh_moves::{Move, act};
use wh_text::{Command, Problem, read_problem};
use wh_words::{Letter, LetterSet, Rank, Tuple, Word};

/// A source that gives at most so many bytes in a read, and whose reads with these numbers fail.
pub(crate) fn source(
    alloc: Global,
    input: &[u8],
    most: usize,
    fails: &[u64],
) -> Result<MemSource, Fail>
    requires { 0 < most }
{
    let bytes = Vec::from_slice(alloc, input)?;
    Ok(MemSource::new(bytes, most, Vec::from_slice(alloc, fails)?))
}

/// A sink that takes at most so many bytes in a write, and whose writes with these numbers fail.
pub(crate) fn sink(alloc: Global, most: usize, fails: &[u64]) -> Result<MemSink, Fail>
    requires { 0 < most }
{
    Ok(MemSink::new(alloc, most, Vec::from_slice(alloc, fails)?))
}

/// The letter that a byte spells.
pub(crate) fn letter(byte: u8) -> Result<Letter, Fail> {
    let letter = match byte {
        b'a'..=b'z' => Letter::new(byte - b'a' + 1, false),
        b'A'..=b'Z' => Letter::new(byte - b'A' + 1, true),
        _ => None,
    };
    Ok(letter.ok_or("no letter")?)
}

/// The letters of a text.
pub(crate) fn letters(alloc: Global, text: &str) -> Result<Vec<Letter>, Fail> {
    let mut letters = Vec::new(alloc);
    for byte in text.bytes() {
        letters.push(letter(byte)?)?;
    }
    Ok(letters)
}

/// The reduced word of a text.
pub(crate) fn word(alloc: Global, text: &str) -> Result<Word, Fail> {
    let letters = letters(alloc, text)?;
    Ok(Word::reduce(alloc, &letters)?)
}

/// The byte that spells a letter.
fn byte(letter: Letter) -> u8 {
    let first = if letter.is_inverse() { b'A' } else { b'a' };
    first + letter.generator() - 1
}

/// Whether a text spells letters.
pub(crate) fn are_spelled(letters: &[Letter], text: &str) -> bool {
    let bytes = text.as_bytes();
    if letters.len() != bytes.len() {
        return false;
    }
    for k in 0..letters.len() {
        if byte(letters[k]) != bytes[k] {
            return false;
        }
    }
    true
}

/// Whether texts spell the words of a tuple, one by one.
pub(crate) fn has_words(tuple: &Tuple, texts: &[&str]) -> bool {
    if tuple.count() != texts.len() {
        return false;
    }
    for k in 0..texts.len() {
        if !are_spelled(tuple.word(k), texts[k]) {
            return false;
        }
    }
    true
}

/// Whether tuples have one word each, and texts spell these.
pub(crate) fn have_words(tuples: &[Tuple], texts: &[&str]) -> bool {
    if tuples.len() != texts.len() {
        return false;
    }
    for k in 0..tuples.len() {
        if !has_words(&tuples[k], &[texts[k]]) {
            return false;
        }
    }
    true
}

/// The tuple of a problem of `reduce`.
fn only_tuple(problem: Problem) -> Option<Tuple> {
    match problem {
        Problem::Reduce { tuple } => Some(tuple),
        Problem::Decide { .. } | Problem::Straighten { .. } | Problem::Stabiliser { .. } => None,
    }
}

/// The tuple of a problem text.
pub(crate) fn tuple(alloc: Global, text: &str) -> Result<Tuple, Fail> {
    let problem = read_problem(alloc, Command::Reduce, text.as_bytes())?;
    Ok(only_tuple(problem).ok_or("two tuples")?)
}

/// Takes a tuple on by a move.
fn go_on(alloc: Global, tuple: &mut Tuple, m: &Move) -> Result<(), Fail>
    requires { m.now.rank ≡ tuple.old.plain.rank }
{
    *tuple = act(alloc, tuple, m)?;
    Ok(())
}

/// Whether a tuple is one of a single letter before each move of a way, over which it is taken.
fn goes_by_letters(alloc: Global, tuple: &mut Tuple, way: &[Move]) -> Result<bool, Fail> {
    for m in way {
        if m.rank() != tuple.rank() || tuple.length() != 1 {
            return Ok(false);
        }
        go_on(alloc, tuple, m)?;
    }
    Ok(true)
}

/// Whether moves lead from a tuple to a letter by tuples of a single letter.
pub(crate) fn leads_by_letters(
    alloc: Global,
    from: &Tuple,
    way: &[Move],
    to: &str,
) -> Result<bool, Fail> {
    let mut tuple = from.copy(alloc)?;
    Ok(goes_by_letters(alloc, &mut tuple, way)? && has_words(&tuple, &[to]))
}

/// A rank.
pub(crate) fn rank(n: u8) -> Rank
    requires least { 0 < n }
    requires greatest { n ≤ most_rank }
    ensures { result ≡ n }
{
    Rank::new(n).unwrap()
}

/// The cut of a rank with a multiplier, told by its byte, and a set, told by its bits.
pub(crate) fn cut(rank: Rank, mult: u8, set: u64) -> Result<Move, Fail>
    ensures { IfOk result (λ m. m.rank ≡ rank) }
{
    Ok(Move::cut(rank, letter(mult)?, LetterSet::of_bits(set)).ok_or("cut")?)
}
