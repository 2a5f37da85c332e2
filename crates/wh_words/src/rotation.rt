//! The first of all rotations of a word, found in linear time.
ghost use Rattle.std.specs.Prelude.{◌≡◌, ◌≢◌, ℕ, ◌+◌, ◌*◌, ◌<◌, ◌≤◌, List, length, get_or};
ghost use Rattle.wh_words.specs.CyclicWords.{rotate, least_rotation};
ghost use Rattle.wh_words.specs.Rounds.{round, Agree};

use crate::letter::Letter;

/// The letter at a place, from the first one on again after the last.
#[tactic(auto, using(crate::proofs::Pointers::round_near, crate::proofs::Pointers::round_far))]
fn letter_at(word: &[Letter], place: usize) -> Letter
    requires { place < length word.now + length word.now }
    ensures { result ≡ round word.now place }
{
    if place < word.len() {
        word[place]
    } else {
        word[place - word.len()]
    }
}

/// The first place from `from` on whose letter isn't above that of `best`, or where the word ends.
#[tactic(auto, using(crate::proofs::Pointers::none_above, crate::proofs::Pointers::one_above))]
fn next_start(word: &[Letter], best: usize, from: usize) -> usize
    requires best { best < length word.now }
    requires from { from ≤ 2 * length word.now }
    ensures order { from ≤ result }
    ensures within { from < result → result ≤ length word.now }
    ensures above { (t : ℕ) → from ≤ t → t < result → get_or word.now best 0 < get_or word.now t 0 }
{
    let first = word[best].index();
    let mut start = from;
    while start < word.len() && first < word[start].index() {
        start += 1;
    }
    start
}

/// How many letters agree from two starts on, up to the end of the word.
#[tactic(auto, using(crate::proofs::Pointers::agree_none, crate::proofs::Pointers::agree_near))]
fn agree_to_end(word: &[Letter], best: usize, other: usize) -> usize
    requires order { best < other }
    requires within { other < length word.now }
    ensures within { other + result ≤ length word.now }
    ensures agree { Agree word.now best other result }
{
    let mut same = 0;
    while other + same < word.len() && word[best + same] == word[other + same] {
        same += 1;
    }
    same
}

/// How many letters agree from two starts on, round and round, at most those of the word.
#[tactic(auto, using(crate::proofs::Pointers::agree_more))]
fn agree(word: &[Letter], best: usize, other: usize) -> usize
    requires order { best < other }
    requires within { other < length word.now }
    ensures within { result ≤ length word.now }
    ensures agree { Agree word.now best other result }
    ensures apart { result < length word.now → round word.now (best + result) ≢ round word.now (other + result) }
{
    let mut same = agree_to_end(word, best, other);
    while same < word.len() && letter_at(word, best + same) == letter_at(word, other + same) {
        same += 1;
    }
    same
}

/// Where the least rotation begins. Two starts are compared at a time, and one of them is given up with as many starts
/// behind it as letters agreed; so few letters are read for each of the word. Starts whose letter is above that of the
/// best are passed over.
#[tactic(auto, using(crate::proofs::Pointers::empty_start))]
pub(crate) fn least_start(word: &[Letter]) -> usize
    ensures within { result ≤ length word.now }
    ensures least { rotate result word.now ≡ least_rotation word.now }
{
    let n = word.len();
    if n == 0 {
        return 0;
    }
    let mut best = 0;
    let mut other = next_start(word, best, 1);
    while other < n {
        let same = agree(word, best, other);
        if same == n {
            return best;
        }
        let mut from = other + same + 1;
        if letter_at(word, other + same).index() < letter_at(word, best + same).index() {
            let past = best + same + 1;
            best = if past < other { other } else { past };
            from = best + 1;
        }
        other = next_start(word, best, from);
    }
    best
}
