//! Letters, words, cyclic words and tuples of a free group, with the definitions that every crate above cites.
#![tactic(auto)]

mod cyclic_word;
mod inline;
pub mod laws;
mod letter;
mod letter_set;
mod limits;
mod list;
mod pass;
mod rank;
mod rotation;
mod steps;
mod storage;
mod tuple;
mod tuple_order;
mod word;

pub use cyclic_word::CyclicWord;
pub use letter::Letter;
pub use letter_set::LetterSet;
pub use limits::{
    MOST_LETTERS, MOST_LEVEL_EDGES, MOST_LEVEL_LENGTH, MOST_LEVEL_RANK, MOST_LEVEL_TUPLES,
    MOST_RANK, MOST_RELATORS, MOST_STABILISER_RANK, MOST_WORDS,
};
pub use list::List;
pub use pass::cut_image_length;
pub use rank::Rank;
/// There was no memory.
pub use std::alloc::AllocError as OutOfMemory;
pub use steps::Steps;
pub use tuple::Tuple;
pub use word::Word;
