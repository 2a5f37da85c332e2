//! Problems.
use wh_moves::Move;
use wh_words::{List, Tuple};

/// What a text of a command asks.
#[derive(Drop)]
pub enum Problem {
    /// To reduce a tuple.
    Reduce { tuple: Tuple },
    /// To decide whether moves carry the first tuple onto the second.
    Decide { first: Tuple, second: Tuple },
    /// To straighten a list of moves that leads from a tuple.
    Straighten { tuple: Tuple, moves: List<Move> },
    /// To present the stabiliser of a tuple.
    Stabiliser { tuple: Tuple },
}
