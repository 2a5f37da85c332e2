//! Answers as they are read, with the numbers of their lines.
use crate::answer::Answer;
use wh_words::{Letter, List};

/// An answer that was read from a text, and what the text tells besides it.
#[derive(Drop)]
pub struct Numbered {
    pub answer: Answer,
    /// The number of each line that isn't skipped, in the order of the text, counted from 1 over all lines.
    pub lines: List<u32>,
    /// The letter and the value that each `flow` line names, in the order of the text.
    pub flow_heads: List<(Letter, u32)>,
    /// The number of the vertex that each `tree` line names, in the order of the text.
    pub tree_heads: List<u32>,
}
