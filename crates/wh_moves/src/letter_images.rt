//! The images of letters under a move.
ghost use Rattle.std.specs.Prelude.{◌≡◌, IfOk};
ghost use Rattle.wh_words.specs.Images as spec;
ghost use Rattle.wh_words.specs.Images.{image};
ghost use Rattle.wh_words.specs.Moves.Kind.{cut};

use crate::image_words::Images;
use crate::moves::{Kind, Move};
use std::alloc::Global;
use wh_words::{Letter, LetterSet, OutOfMemory, Word};

/// The image of a letter under a cut.
fn cut_image(alloc: Global, mult: Letter, set: LetterSet, x: Letter) -> Result<Word, OutOfMemory>
    ensures { IfOk result (λ w. w ≡ image (cut mult set) x) }
{
    if x.generator() == mult.generator() {
        return Word::reduce(alloc, &[x]);
    }
    let before = set.contains(x.inverse());
    let behind = set.contains(x);
    if before && behind {
        Word::reduce(alloc, &[mult.inverse(), x, mult])
    } else if before {
        Word::reduce(alloc, &[mult.inverse(), x])
    } else if behind {
        Word::reduce(alloc, &[x, mult])
    } else {
        Word::reduce(alloc, &[x])
    }
}

/// The image of a letter under a move, a reduced word (Lyndon and Schupp, I.4).
pub fn image_word(alloc: Global, m: &Move, x: Letter) -> Result<Word, OutOfMemory>
    ensures { IfOk result (λ w. w ≡ image m.now.kind x) }
{
    match m.kind() {
        Kind::Swap(k) => Word::reduce(alloc, &[x.swapped(k)]),
        Kind::Invert(k) => Word::reduce(alloc, &[x.inverted(k)]),
        Kind::Cut { mult, set } => cut_image(alloc, mult, set, x),
    }
}

/// The images of all generators under a move, each a reduced word (Lyndon and Schupp, I.4).
pub fn images(alloc: Global, m: &Move) -> Result<Images, OutOfMemory>
    ensures { IfOk result (λ i. i ≡ spec.images m.now) }
{
    let mut words = Vec::new(alloc);
    for g in 0..m.rank().get() {
        words.push(image_word(alloc, m, Letter::of_index(2 * g))?)?;
    }
    Ok(Images::of(words))
}
