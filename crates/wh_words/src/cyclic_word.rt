//! Cyclic words.
ghost use Rattle.std.specs.Prelude.{◌≡◌, ◌≤◌, length, IsOk, IfOk};
ghost use Rattle.wh_words.specs.CyclicWords.{cyclic_core, rotate, cyclic_word};

use crate::OutOfMemory;
use crate::inline::{INLINE, InlineLetters};
use crate::letter::Letter;
use crate::rotation::least_start;
use crate::word::Word;
use smallvec::SmallVec;
use std::alloc::{AllocError, Global};
use std::marker::Model;

/// A cyclic word, which is a conjugacy class of the free group. It is kept as the first of its rotations, and contracts
/// see the list of these letters. Up to 16 letters need no memory of their own. Cyclic words are compared as words are.
#[derive(Debug, Drop, PartialEq, Eq, PartialOrd, Ord, Hash)]
pub struct CyclicWord {
    letters: InlineLetters,
}

impl Model for CyclicWord {
    ghost use Rattle.std.specs.Prelude.{ℕ, List, ◌≡◌};
    ghost use Rattle.wh_words.specs.CyclicWords.{cyclic_word};

    ghost Value = { List ℕ };

    ghost view = { λ w. w.letters };

    ghost inverse = { λ letters. record { letters = letters } };

    ghost invariant = { λ w. cyclic_word w.letters ≡ w.letters };
}

/// A word without its inverse ends.
pub(crate) fn strip_ends(word: &[Letter]) -> &[Letter]
    ensures { result.now ≡ cyclic_core word.now }
{
    let mut rest = word;
    while let [first, middle @ .., last] = rest
        && *last == first.inverse()
    {
        rest = middle;
    }
    rest
}

/// The rotation that begins at `start`.
fn rotated(
    alloc: Global,
    word: &[Letter],
    start: usize,
) -> Result<SmallVec<Letter, INLINE>, AllocError>
    requires { start ≤ length word.now }
    ensures ok { IfOk result (λ v. v.items ≡ rotate start word.now) }
    ensures succeeds { length word.now ≤ 16 → IsOk result }
{
    let mut letters = SmallVec::from_slice(alloc, &word[start..])?;
    letters.extend_from_slice(&word[..start])?;
    Ok(letters)
}

impl CyclicWord {
    /// The cyclic word of a word, in time linear in its letters (Lyndon and Schupp, I.4). It always succeeds where the
    /// word has at most 16 letters, and takes no memory there.
    pub fn of(alloc: Global, word: &Word) -> Result<CyclicWord, OutOfMemory>
        ensures cyclic { IfOk result (λ w. w ≡ cyclic_word word.now) }
        ensures succeeds { length word.now ≤ 16 → IsOk result }
    {
        let core = strip_ends(word.letters());
        let start = least_start(core);
        let letters = rotated(alloc, core, start)?;
        Ok(CyclicWord {
            letters: InlineLetters::of(letters),
        })
    }

    /// The letters of the first rotation.
    pub fn letters(&self) -> &[Letter]
        ensures value { result.now ≡ self.now }
        ensures own { cyclic_word self.now ≡ self.now }
    {
        self.letters.as_slice()
    }
}
