//! The stabiliser of a tuple, as data.
use wh_level::Tree;
use wh_moves::Move;
use wh_words::{List, Tuple};

/// A relator: a way round the level, and the numbers of the generators on it.
#[derive(Drop)]
pub struct Relator {
    /// The place of the vertex at which the way begins and ends, counted from 0.
    pub at: usize,
    /// The moves of the way, whose composite is the identity.
    pub moves: List<Move>,
    /// The numbers of the generators on the way, counted from 1. Edges of the tree have none.
    pub word: List<u32>,
}

/// Generators and relators of the automorphisms that fix a tuple (McCool 1975).
#[derive(Drop)]
pub struct Stab {
    /// The moves that lead from the tuple to the root of the level.
    pub trace: List<Move>,
    /// The tuples of the level, in order.
    pub vertices: List<Tuple>,
    /// The tree of first walks from the root.
    pub tree: Tree,
    /// The generators, by the places at which their edges start, counted from 0, and their moves.
    pub generators: List<(usize, Move)>,
    /// The relators, by their vertices in order.
    pub relators: List<Relator>,
}

/// A stabiliser, or which bound stands in its way.
#[derive(Drop)]
pub enum Stabilised {
    Done(Stab),
    /// The level has more than MOST_LEVEL_EDGES edges.
    Edges,
    /// The level has at most as many, and more than MOST_RELATORS relators.
    Relators,
}
