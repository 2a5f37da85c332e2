//! A cut in one pass round a cyclic word. What it writes is cyclically reduced as it stands.
ghost use Rattle.std.specs.Prelude.{if◌then◌else◌, ◌≡◌, ◌+◌, ◌<◌, ◌≤◌, [], ◌∷◌, ◌++◌, ◌==◌, length, take};
ghost use Rattle.std.specs.Int.{bit_at};
ghost use Rattle.wh_words.specs.Limits.{most_letters};
ghost use Rattle.wh_words.specs.Letters.{inverse_letter};
ghost use Rattle.wh_words.specs.LetterSets.{in_set};
ghost use Rattle.wh_words.specs.CyclicWords.{cyclic_word};
ghost use Rattle.wh_words.specs.Passes.{kept, junction_of, round_pass};
ghost use Rattle.wh_words.specs.Action.{substitute};
ghost use Rattle.wh_words.specs.Moves.Kind.{cut};

use crate::letter::Letter;
use crate::letter_set::LetterSet;

/// Writes a letter at a place, and answers the place behind it where the letter is to stay. It is written in both cases,
/// since a test would cost more.
fn put(out: &mut [Letter], at: usize, letter: Letter, stays: bool) -> usize
    requires { at < length out.old }
    ensures written { take result out.new ≡ take at out.old ++ (if stays then letter ∷ [] else []) }
    ensures place { result ≡ at + (if stays then 1 else 0) }
    ensures same_length { length out.new ≡ length out.old }
{
    out[at] = letter;
    if stays { at + 1 } else { at }
}

/// Writes what a cut leaves between two letters, by whether the first is in the set, and the second.
fn put_between(
    out: &mut [Letter],
    at: usize,
    here: bool,
    x: Letter,
    mult: Letter,
    set: LetterSet,
) -> usize
    requires { at < length out.old }
    ensures written { take result out.new ≡ take at out.old ++ junction_of mult (in_set set) here (in_set set (inverse_letter x)) }
    ensures place { result ≡ at + length (junction_of mult (in_set set) here (in_set set (inverse_letter x))) }
    ensures same_length { length out.new ≡ length out.old }
{
    let there = set.contains(x.inverse());
    let letter = if here { mult } else { mult.inverse() };
    put(out, at, letter, here != there)
}

/// Writes what a cut leaves of a letter: itself, unless it is the multiplier or its inverse.
fn put_kept(out: &mut [Letter], at: usize, x: Letter, mult: Letter, set: LetterSet) -> usize
    requires { at < length out.old }
    ensures written { take result out.new ≡ take at out.old ++ kept mult (in_set set) x }
    ensures place { result ≡ at + length (kept mult (in_set set) x) }
    ensures same_length { length out.new ≡ length out.old }
{
    put(out, at, x, x != mult && x != mult.inverse())
}

/// Writes the pass of a cut round a cyclic word at a place, and answers the place behind it. There has to be one place
/// more than the pass needs.
pub(crate) fn write_pass(
    out: &mut [Letter],
    at: usize,
    word: &[Letter],
    mult: Letter,
    set: LetterSet,
) -> usize
    requires { at + length (round_pass mult (in_set set) word.now) < length out.old }
    ensures written { take result out.new ≡ take at out.old ++ round_pass mult (in_set set) word.now }
    ensures place { result ≡ at + length (round_pass mult (in_set set) word.now) }
    ensures same_length { length out.new ≡ length out.old }
{
    let mut next = at;
    if let Some(last) = word.last() {
        let mut here = set.contains(*last);
        for x in word {
            next = put_between(out, next, here, *x, mult, set);
            next = put_kept(out, next, *x, mult, set);
            here = set.contains(*x);
        }
    }
    next
}

/// How many letters a cut leaves between two letters, by whether the first is in the set.
fn junction_length(here: bool, x: Letter, mult: Letter, set: LetterSet) -> u32
    ensures value { result ≡ length (junction_of mult (in_set set) here (in_set set (inverse_letter x))) }
    ensures few { result ≤ 1 }
{
    if here == set.contains(x.inverse()) {
        0
    } else {
        1
    }
}

/// How many letters a cut leaves of a letter.
fn kept_length(x: Letter, mult: Letter, set: LetterSet) -> u32
    ensures value { result ≡ length (kept mult (in_set set) x) }
    ensures few { result ≤ 1 }
{
    if x != mult && x != mult.inverse() {
        1
    } else {
        0
    }
}

/// How long the pass of a cut round a cyclic word is.
fn pass_length(word: &[Letter], mult: Letter, set: LetterSet) -> u32
    requires { length word.now ≤ most_letters }
    ensures { result ≡ length (round_pass mult (in_set set) word.now) }
{
    let mut total = 0;
    if let Some(last) = word.last() {
        let mut inside = set.contains(*last);
        for x in word {
            total += junction_length(inside, *x, mult, set) + kept_length(*x, mult, set);
            inside = set.contains(*x);
        }
    }
    total
}

/// How many letters the image of a cyclic word under a cut has, without making it. The word is its own first rotation
/// and has at most 4,096 letters, and the set holds the multiplier and not its inverse.
#[tactic(auto, using(crate::proofs::CutImages::cut_image_length))]
pub fn cut_image_length(word: &[Letter], mult: Letter, set: LetterSet) -> u32
    requires own { cyclic_word word.now ≡ word.now }
    requires short { length word.now ≤ most_letters }
    requires holds { bit_at set mult ≡ 1 }
    requires omits { bit_at set (inverse_letter mult) ≡ 0 }
    ensures { result ≡ length (cyclic_word (substitute (cut mult set) word.now)) }
{
    pass_length(word, mult, set)
}
