//! Composites of lists of moves, and permutations of letters as lists of swaps and inversions.
#![tactic(auto)]

mod composing;
mod limits;
mod signed_perm;
mod sorting;

pub use composing::{ComposeError, compose};
pub use limits::MOST_IMAGE_LETTERS;
pub use signed_perm::SignedPerm;
pub use sorting::perm_word;
