//! The greatest sizes that the program takes. Each number stands here alone.

/// The greatest rank: the generators are `a` to `z`.
pub const MOST_RANK: u8 = 26;

/// How many words a tuple may have.
pub const MOST_WORDS: usize = 64;

/// How many letters the words of a tuple may have together.
pub const MOST_LETTERS: u32 = 4096;

/// The greatest rank in which levels are explored.
pub const MOST_LEVEL_RANK: u8 = 6;

/// The greatest length of a tuple whose level is explored.
pub const MOST_LEVEL_LENGTH: u32 = 256;

/// How many tuples a level may have.
pub const MOST_LEVEL_TUPLES: u32 = 131072;

/// The greatest rank in which stabilisers are made.
pub const MOST_STABILISER_RANK: u8 = 4;

/// How many edges the level of a stabiliser may have: level moves of all its tuples together.
pub const MOST_LEVEL_EDGES: usize = 65536;

/// How many relators the level of a stabiliser may have.
pub const MOST_RELATORS: usize = 393_216;
