//! One word for each generator.
ghost use Rattle.std.specs.Prelude.{◌≡◌, ◌==◌, ◌↔◌, ◌*◌, ◌∷◌, [], IsTrue};
ghost use Rattle.wh_words.specs.Images.{AreIdentity};
ghost use Rattle.std.specs.Cmp.Rules.{comparing};
ghost use Rattle.std.proofs.Common.{rules};
ghost use lib.Pointwise.{pointwise};

use std::marker::Model;
use wh_words::{List, Word};

/// One reduced word for each generator, in order. Contracts see the list of these words.
#[derive(Debug, Drop)]
pub struct Images {
    words: List<Word>,
}

impl Model for Images {
    ghost use Rattle.std.specs.Prelude.{ℕ, List};

    ghost Value = { List (List ℕ) };

    ghost view = { λ i. i.words };
}

/// Whether a word is the letter of generator `g` alone, counted from 0.
fn is_generator(word: &Word, g: usize) -> bool
    ensures { IsTrue result ↔ (word.now ≡ 2 * g ∷ []) }
{
    match word.letters() {
        [letter] => !letter.is_inverse() && letter.index() as usize / 2 == g,
        _ => false,
    }
}

impl Images {
    /// The words as images, that of the first generator first.
    pub fn of(words: Vec<Word>) -> Images
        ensures { result ≡ words.items }
    {
        Images {
            words: List::of(words),
        }
    }

    /// The words, that of the first generator first.
    pub fn words(&self) -> &[Word]
        ensures { result.now ≡ self.now }
    {
        self.words.items()
    }

    /// Whether they are the images of the identity, each generator by its letter alone. It takes no memory.
    pub fn is_identity(&self) -> bool
        ensures { IsTrue result ↔ AreIdentity self.now }
    {
        for (g, word) in self.words().iter().enumerate() {
            if !is_generator(word, g) {
                return false;
            }
        }
        true
    }
}

impl PartialEq for Images {
    ghost eq = { pointwise (pointwise ◌==◌) };

    ghost laws = { Prim.search (comparing, rules) };

    fn eq(&self, other: &Images) -> bool {
        self.words() == other.words()
    }
}

impl Eq for Images {
    ghost laws = { Prim.search (comparing, rules) };
}
