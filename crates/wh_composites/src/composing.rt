//! The composite of a list of moves.
ghost use Rattle.std.specs.Prelude.{◌≡◌, ℕ, ◌*◌, ◌≤◌, ◌++◌, [], length, map, IfOk, IfErr, OnOk};
ghost use Rattle.std.specs.List.{All};
ghost use Rattle.wh_words.specs.Limits.{most_rank};
ghost use Rattle.wh_words.specs.Words.{free_reduction};
ghost use Rattle.wh_words.specs.Moves.{IsMove};
ghost use Rattle.wh_words.specs.Images.{image};
ghost use Rattle.wh_words.specs.Action.{substitute};
ghost use Rattle.wh_words.specs.Composites.{composite};
ghost use Rattle.wh_composites.specs.Limits.{most_image_letters};
ghost use Rattle.wh_composites.specs.Composing as spec;
ghost use Rattle.wh_composites.specs.Composing.{ComposesUpTo, IsComposeFault};

use crate::limits::MOST_IMAGE_LETTERS;
use std::alloc::Global;
use thiserror::Error;
use wh_moves::{Images, Move, image_word};
use wh_words::{Letter, OutOfMemory, Rank, Word};

/// Why moves can't be composed.
#[derive(Debug, Drop, PartialEq, Eq, Error)]
pub enum ComposeError {
    /// The images after move number `place` are the first that have more than 65,536 letters; they have `length`.
    #[error("the images after move {place} have {length} letters")]
    TooLong { place: usize, length: u64 },
    /// There was no memory.
    #[error("out of memory")]
    OutOfMemory,
}

impl From<OutOfMemory> for ComposeError {
    ghost use Rattle.wh_composites.specs.declared.composing.ComposeError.TheVariants as errors;

    ghost from_gives = { λ _ e. e ≡ errors.OutOfMemory };

    fn from(_: OutOfMemory) -> ComposeError {
        ComposeError::OutOfMemory
    }
}

/// The images of the identity.
fn generators(alloc: Global, rank: Rank) -> Result<Vec<Word>, OutOfMemory>
    ensures composite { IfOk result (λ v. v.items ≡ composite rank []) }
    ensures low { rank ≤ most_rank }
{
    let mut images = Vec::new(alloc);
    for g in 0..rank.get() {
        images.push(Word::reduce(alloc, &[Letter::of_index(2 * g)])?)?;
    }
    Ok(images)
}

/// Puts the image of a letter under a move behind other letters.
fn push_image(
    alloc: Global,
    letters: &mut Vec<Letter>,
    m: &Move,
    x: Letter,
) -> Result<(), OutOfMemory>
    ensures { OnOk result (letters.new.items ≡ letters.old.items ++ image m.now.kind x) }
{
    let image = image_word(alloc, m, x)?;
    letters.extend_from_slice(image.letters())?;
    Ok(())
}

/// A word with the image of each letter under a move in its place, reduced.
fn substituted(alloc: Global, m: &Move, word: &[Letter]) -> Result<Word, OutOfMemory>
    ensures { IfOk result (λ w. w ≡ free_reduction (substitute m.now.kind word.now)) }
{
    let mut letters = Vec::new(alloc);
    for x in word {
        push_image(alloc, &mut letters, m, *x)?;
    }
    Word::reduce(alloc, &letters)
}

/// The images after one more move.
fn moved_images(alloc: Global, images: &[Word], m: &Move) -> Result<Vec<Word>, OutOfMemory>
    ensures images { IfOk result (λ v. v.items ≡ map (λ w. free_reduction (substitute m.now.kind w)) images.now) }
    ensures valid { IsMove m.now }
{
    // The move is valid, which the proof takes from this call.
    m.rank();
    let mut moved = Vec::new(alloc);
    for word in images {
        moved.push(substituted(alloc, m, word.letters())?)?;
    }
    Ok(moved)
}

/// How many letters words have.
fn letter_count(words: &[Word]) -> u64
    requires few { spec.letter_count words.now ≤ 3 * most_image_letters }
    ensures { result ≡ spec.letter_count words.now }
{
    let mut total = 0;
    for word in words {
        total += word.letters().len() as u64;
    }
    total
}

/// The composite of a list of moves of a rank, the first move first: the images of all generators, each a reduced word
/// (Lyndon and Schupp, I.4). The empty list gives the images of the identity. `TooLong` comes exactly where the images
/// after some move have more than 65,536 letters in all: its place is the number of the first such move, counted from 1,
/// and its length is their number.
pub fn compose(alloc: Global, rank: Rank, list: &[Move]) -> Result<Images, ComposeError>
    requires { All (λ m. m.rank ≡ rank) list.now }
    ensures composite { IfOk result (λ i. i ≡ composite rank list.now) }
    ensures fits { IfOk result (λ _. (k : ℕ) → k ≤ length list.now → ComposesUpTo rank list.now k) }
    ensures fault { IfErr result (IsComposeFault rank list.now) }
{
    let mut images = generators(alloc, rank)?;
    for (made, m) in list.iter().enumerate() {
        images = moved_images(alloc, &images, m)?;
        let length = letter_count(&images);
        if length > MOST_IMAGE_LETTERS {
            return Err(ComposeError::TooLong {
                place: made + 1,
                length,
            });
        }
    }
    Ok(Images::of(images))
}
