//! Freely reduced words.
ghost use Rattle.std.specs.Prelude.{◌≡◌, ◌+◌, ◌-◌, ◌≤◌, ◌∷◌, [], ◌++◌, ◌↔◌, length, IsOk, IfOk, OnOk, IsTrue, slice_get, Some};
ghost use Rattle.smallvec.specs.SmallVec.{HasRoomFor};
ghost use Rattle.wh_words.specs.Letters.{inverse_letter};
ghost use Rattle.wh_words.specs.Words.{free_reduction, IsReduced};

use crate::OutOfMemory;
use crate::inline::{INLINE, InlineLetters};
use crate::letter::Letter;
use smallvec::SmallVec;
use std::alloc::Global;
use std::marker::Model;

/// A freely reduced word. Contracts see the list of its letters. Up to 16 letters need no memory of their own. Words
/// are compared letter by letter, and a proper prefix is smaller; comparisons and hashes take no memory.
#[derive(Debug, Drop, PartialEq, Eq, PartialOrd, Ord, Hash)]
pub struct Word {
    letters: InlineLetters,
}

impl Model for Word {
    ghost use Rattle.std.specs.Prelude.{ℕ, List};
    ghost use Rattle.wh_words.specs.Words.{IsReduced};

    ghost Value = { List ℕ };

    ghost view = { λ w. w.letters };

    ghost inverse = { λ letters. record { letters = letters } };

    ghost invariant = { λ w. IsReduced w.letters };
}

/// Whether a word ends with the inverse of a letter.
fn ends_with_inverse(word: &[Letter], x: Letter) -> bool
    ensures { IsTrue result ↔ (slice_get word.now (length word.now - 1) ≡ Some (inverse_letter x)) }
{
    match word.last() {
        Some(last) => *last == x.inverse(),
        None => false,
    }
}

/// Writes a letter after a reduced word, and reduces.
#[tactic(auto, using(crate::proofs::FreeReduction::push_same, crate::proofs::FreeReduction::push_other))]
fn push_letter(kept: &mut SmallVec<Letter, INLINE>, x: Letter) -> Result<(), OutOfMemory>
    requires { IsReduced kept.old.items }
    ensures ok { OnOk result (kept.new.items ≡ free_reduction (kept.old.items ++ x ∷ [])) }
    ensures succeeds { HasRoomFor kept.old 1 → IsOk result }
    ensures capacity { kept.old.capacity ≤ kept.new.capacity }
{
    if ends_with_inverse(kept, x) {
        let _ = kept.pop();
        Ok(())
    } else {
        kept.push(x)?;
        Ok(())
    }
}

impl Word {
    /// The free reduction of a list of letters, in time linear in their number (Lyndon and Schupp, I.1). It always
    /// succeeds where there are at most 16 letters, and takes no memory there.
    pub fn reduce(alloc: Global, letters: &[Letter]) -> Result<Word, OutOfMemory>
        ensures reduced { IfOk result (λ w. w ≡ free_reduction letters.now) }
        ensures succeeds { length letters.now ≤ 16 → IsOk result }
    {
        let mut kept = SmallVec::new(alloc);
        for x in letters {
            push_letter(&mut kept, *x)?;
        }
        Ok(Word {
            letters: InlineLetters::of(kept),
        })
    }

    /// The letters, first to last.
    pub fn letters(&self) -> &[Letter]
        ensures value { result.now ≡ self.now }
        ensures reduced { IsReduced self.now }
    {
        self.letters.as_slice()
    }
}
