//! The greatest sizes that moves are composed up to. Each number stands here alone.

/// How many letters the images of all generators may have together.
pub const MOST_IMAGE_LETTERS: u64 = 65536;
