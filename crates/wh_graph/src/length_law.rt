//! How long a tuple is after a move.
ghost use Rattle.std.specs.Prelude.{◌≡◌, ◌≤◌, length, count_by};
ghost use Rattle.wh_words.specs.Limits.{most_letters};
ghost use Rattle.wh_words.specs.Letters.{inverse_letter};
ghost use Rattle.wh_words.specs.LetterSets.{in_set};
ghost use Rattle.wh_words.specs.Tuples.{tuple_length};
ghost use Rattle.wh_words.specs.Edges as spec;
ghost use Rattle.wh_words.specs.Edges.{crosses, word_edges};
ghost use Rattle.wh_words.specs.Action.{act};
ghost use Rattle.wh_graph.specs.Laws.{is_of};

use wh_moves::{Kind, Move};
use wh_words::{Letter, LetterSet, Tuple};

/// Whether the edge between a letter and the inverse of the next leaves a set.
fn leaves(before: Letter, x: Letter, set: LetterSet) -> bool
    ensures { result ≡ crosses (in_set set) (before, inverse_letter x) }
{
    let here = set.contains(before);
    let there = set.contains(x.inverse());
    here && !there || there && !here
}

/// How many edges of a cyclic word leave a set.
fn crossings(word: &[Letter], set: LetterSet) -> u32
    requires { length word.now ≤ most_letters }
    ensures { result ≡ count_by (crosses (in_set set)) (word_edges word.now) }
{
    let mut total = 0;
    if let Some(last) = word.last() {
        let mut before = *last;
        for x in word {
            if leaves(before, *x, set) {
                total += 1;
            }
            before = *x;
        }
    }
    total
}

/// How many letters of a word are a letter or its inverse.
fn occurrences(word: &[Letter], letter: Letter) -> u32
    requires { length word.now ≤ most_letters }
    ensures { result ≡ count_by (is_of letter) word.now }
{
    let mut total = 0;
    for x in word {
        if *x == letter || *x == letter.inverse() {
            total += 1;
        }
    }
    total
}

/// The capacity of a set of letters in the Whitehead graph of a tuple.
fn capacity(tuple: &Tuple, set: LetterSet) -> u32
    ensures { result ≡ spec.cap (in_set set) tuple.now.plain }
{
    let mut total = 0;
    for place in 0..tuple.count() {
        total += crossings(tuple.word(place), set);
    }
    total
}

/// The degree of a letter in the Whitehead graph of a tuple.
fn degree(tuple: &Tuple, letter: Letter) -> u32
    ensures { result ≡ spec.deg letter tuple.now.plain }
{
    let mut total = 0;
    for place in 0..tuple.count() {
        total += occurrences(tuple.word(place), letter);
    }
    total
}

/// How many letters a tuple has after a move of its rank, without making it. A cut adds the capacity of its set and
/// takes the degree of its multiplier; swaps and inversions keep the length (Lyndon and Schupp, I.4). It takes no memory,
/// and its time is linear in the letters.
#[tactic(auto, using(crate::proofs::Lengths::swap_same, crate::proofs::Lengths::invert_same))]
pub fn new_length(tuple: &Tuple, m: &Move) -> u32
    requires { tuple.now.plain.rank ≡ m.now.rank }
    ensures { result ≡ tuple_length (act tuple.now.plain m.now) }
{
    match m.kind() {
        Kind::Swap(_) | Kind::Invert(_) => tuple.length(),
        Kind::Cut { mult, set } => tuple.length() + capacity(tuple, set) - degree(tuple, mult),
    }
}
