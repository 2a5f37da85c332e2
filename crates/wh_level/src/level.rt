//! Levels, and the tree of their first walks.
ghost use Rattle.std.specs.Prelude.{◌≡◌, ◌<◌, length, map, Some, slice_get, MatchOption};
ghost use Rattle.wh_words.specs.Levels.{InLevel};
ghost use Rattle.wh_level.specs.Trees.{IsClosedLevel};

use std::marker::Model;
use wh_moves::Move;
use wh_words::Tuple;

/// The whole level of a root, whose rank is at most MOST_LEVEL_RANK: its tuples in the order of tuples, each once, with
/// the tree of their first walks (Lyndon and Schupp, I.4). Contracts see the root, the tuples and their parents.
#[derive(Drop)]
pub struct Level {
    pub(crate) root: Tuple,
    pub(crate) tuples: Vec<Tuple>,
    pub(crate) parents: Vec<Option<(usize, Move)>>,
}

impl Model for Level {
    ghost use Rattle.std.specs.Prelude.{map};
    ghost use Rattle.wh_level.specs.Trees as spec;

    ghost Value = { spec.LevelData };

    ghost view = { λ l. record { root = l.root.plain; tuples = map (λ t. t.plain) l.tuples.items; parents = l.parents.items } };

    ghost invariant = { λ l. spec.IsClosedLevel (record { root = l.root.plain; tuples = map (λ t. t.plain) l.tuples.items; parents = l.parents.items }) };
}

impl Level {
    /// The tuple that the level is reached from.
    pub fn root(&self) -> &Tuple
        ensures root { result.now.plain ≡ self.now.root }
        ensures closed { IsClosedLevel self.now }
    {
        &self.root
    }

    /// The tuples, in order.
    pub fn tuples(&self) -> &[Tuple]
        ensures tuples { map (λ t. t.plain) result.now ≡ self.now.tuples }
        ensures closed { IsClosedLevel self.now }
    {
        self.tuples.as_slice()
    }

    /// The parent of the tuple at a place, counted from 0: its place, and the move that leads from it. None exactly for
    /// the root.
    pub fn parent(&self, place: usize) -> Option<(usize, Move)>
        requires { place < length self.now.tuples }
        ensures parent { slice_get self.now.parents place ≡ Some result }
        ensures closed { IsClosedLevel self.now }
    {
        self.parents[place]
    }

    /// The parents of all tuples, by their places.
    pub fn parents(&self) -> &[Option<(usize, Move)>]
        ensures parents { result.now ≡ self.now.parents }
        ensures closed { IsClosedLevel self.now }
    {
        self.parents.as_slice()
    }

    /// The place of a tuple, counted from 0. None exactly where it isn't in the level.
    pub fn place(&self, tuple: &Tuple) -> Option<usize>
        ensures place { MatchOption result (¬ (InLevel self.now.root tuple.now.plain)) (λ v. slice_get self.now.tuples v ≡ Some tuple.now.plain) }
        ensures closed { IsClosedLevel self.now }
    {
        self.tuples.binary_search(tuple).ok()
    }

    /// The tuples, in order, for their new owner.
    pub fn into_tuples(self) -> Vec<Tuple>
        ensures { map (λ t. t.plain) result.items ≡ self.tuples }
    {
        let Level { tuples, .. } = self;
        tuples
    }
}
