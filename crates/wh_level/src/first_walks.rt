//! The type of the tree of a level: from which tuple each tuple is first reached, and by which move.
use wh_moves::Move;
use wh_words::List;

/// The tree of a level: for each tuple, by its place, the place of its parent and the move that leads from it.
#[derive(Drop)]
pub struct Tree {
    pub parent: List<Option<(usize, Move)>>,
}
