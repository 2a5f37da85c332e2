//! Permutations of letters that commute with inverting.
ghost use Rattle.std.specs.Prelude.{◌≡◌, ◌≢◌, ℕ, ◌*◌, ◌/◌, ◌%◌, ◌<◌, ◌==◌, cond, length, get_or};
ghost use Rattle.wh_words.specs.Limits.{most_rank};
ghost use Rattle.wh_words.specs.Letters.{inverse_letter};
ghost use Rattle.wh_composites.specs.SignedPerms.{IsSignedPerm, letter_image, carry};

use std::marker::Model;
use wh_words::{Letter, MOST_RANK, Rank};

/// How many generators there are at most.
const GENERATORS: usize = MOST_RANK as usize;

/// Swaps and inversions in full: a permutation of the letters of a rank that takes inverse letters to inverse letters.
/// Contracts see the rank and the list of the images of the generators. It takes no memory.
#[derive(Debug, Drop)]
pub struct SignedPerm {
    rank: Rank,
    images: [Letter; GENERATORS],
}

impl Model for SignedPerm {
    ghost use Rattle.std.specs.Prelude.{take};
    ghost use Rattle.wh_composites.specs.SignedPerms as spec;
    ghost use Rattle.wh_composites.specs.SignedPerms.{IsSignedPerm};

    ghost Value = { spec.SignedPerm };

    ghost view = { λ p. record { rank = p.rank; images = take p.rank p.images } };

    ghost invariant = { λ p. IsSignedPerm (record { rank = p.rank; images = take p.rank p.images }) };
}

/// The letters of all generators.
fn generators() -> [Letter; GENERATORS]
    ensures letters { (g : ℕ) → g < most_rank → get_or result g 0 ≡ 2 * g }
    ensures count { length result ≡ most_rank }
{
    let mut letters = [Letter::default(); GENERATORS];
    for g in 0..GENERATORS {
        letters[g] = Letter::of_index(2 * g as u8);
    }
    letters
}

/// The image of a letter where its generator goes to another letter; of the generator where the letter goes there.
fn signed(letter: Letter, image: Letter) -> Letter
    ensures { result ≡ cond (letter % 2 == 0) image (inverse_letter image) }
{
    if letter.is_inverse() {
        image.inverse()
    } else {
        image
    }
}

impl SignedPerm {
    /// The permutation that leaves every letter.
    pub fn identity(rank: Rank) -> SignedPerm
        ensures rank { result.rank ≡ rank }
        ensures leaves { (x : ℕ) → x < 2 * rank → letter_image result.images x ≡ x }
    {
        // The rank is at most 26, which the proof takes from this call.
        rank.get();
        SignedPerm {
            rank,
            images: generators(),
        }
    }

    /// The permutation that takes `a` to `b` and `b` to the inverse of `a`, and leaves other generators. The two letters are
    /// of the rank and of different generators.
    pub fn carry(rank: Rank, a: Letter, b: Letter) -> SignedPerm
        requires a_of_rank { a < 2 * rank }
        requires b_of_rank { b < 2 * rank }
        requires apart { a / 2 ≢ b / 2 }
        ensures rank { result.rank ≡ rank }
        ensures carries { (x : ℕ) → x < 2 * rank → letter_image result.images x ≡ carry a b x }
    {
        // The rank is at most 26, which the proof takes from this call.
        rank.get();
        let mut images = generators();
        images[a.index() as usize / 2] = signed(a, b);
        images[b.index() as usize / 2] = signed(b, a.inverse());
        SignedPerm { rank, images }
    }

    /// The rank of the letters.
    pub fn rank(&self) -> Rank
        ensures rank { result ≡ self.now.rank }
        ensures valid { IsSignedPerm self.now }
    {
        self.rank
    }

    /// The images of the generators, in order.
    pub fn images(&self) -> &[Letter]
        ensures { result.now ≡ self.now.images }
    {
        &self.images[..self.rank.get() as usize]
    }

    /// The letter that a letter of the rank goes to.
    pub fn apply(&self, x: Letter) -> Letter
        requires { x < 2 * self.now.rank }
        ensures { result ≡ letter_image self.now.images x }
    {
        signed(x, self.images[x.index() as usize / 2])
    }
}
