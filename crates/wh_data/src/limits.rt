//! The greatest sizes of texts. Each number stands here alone.

/// How many bytes the text of a problem may have.
pub const MOST_PROBLEM_BYTES: usize = 1048576;

/// How many moves a `moves` line of a problem may have.
pub const MOST_GIVEN_MOVES: usize = 1024;

/// How many bytes the text of an answer may have, where it is read.
pub const MOST_ANSWER_BYTES: usize = 67108864;
