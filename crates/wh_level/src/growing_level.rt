//! Levels that grow, as a search finds one tuple after another.
ghost use Rattle.std.specs.Prelude.{◌≡◌, ◌^◌, ◌+◌, ◌<◌, ◌≤◌, length, slice_get, Some, IfOk, OnOk};
ghost use Rattle.std.specs.List.{IsDistinct};
ghost use Rattle.std.specs.Ordering.{eq_by_cmp};
ghost use Rattle.wh_words.specs.Limits.{most_level_rank};
ghost use Rattle.wh_words.specs.Tuples.{TupleData, IsTuple, tuple_cmp};
ghost use Rattle.wh_expand.specs.Rows.{IsRow, row_tuple};
ghost use Rattle.wh_level.specs.Trees.{IsClosedLevel};
ghost use Rattle.wh_level.specs.PlacedTuples.{HasRoomsFor, KeepsRooms};
ghost use Rattle.wh_level.specs.GrowingLevels.{IsMet, HasGoneOver, GoesOn};

use crate::level::Level;
use crate::renumbering::{moved_parents, other_places};
use crate::sealing::level_of;
use std::alloc::Global;
use std::marker::Model;
use wh_expand::{Row, is_turned_cut};
use wh_moves::{Move, act_into};
use wh_sets::TupleSet;
use wh_words::{OutOfMemory, Tuple};

/// The tuples of a level that a search has found so far, in the order in which it found them, each with its parent: the
/// place of the tuple, and the move from it, over which it was found. The search goes over the tuples in this order, and
/// over the level moves of each in theirs, so that it finds each tuple on its first walk.
#[derive(Drop)]
pub struct GrowingLevel {
    tuples: TupleSet,
    parents: Vec<Option<(usize, Move)>>,
}

impl Model for GrowingLevel {
    ghost use Rattle.wh_level.specs.GrowingLevels as spec;

    ghost Value = { spec.GrowingData };

    ghost view = { λ g. record { tuples = g.tuples; parents = g.parents.items } };
}

impl GrowingLevel {
    /// The root alone, over which the search has not gone yet.
    pub fn start(alloc: Global, root: &Tuple) -> Result<GrowingLevel, OutOfMemory>
        ensures { IfOk result (λ g. HasGoneOver root.now.plain g 0) }
    {
        let mut tuples = TupleSet::new(alloc);
        tuples.add(alloc, root)?;
        let parents = vec![in alloc; None]?;
        Ok(GrowingLevel { tuples, parents })
    }

    /// How many tuples were found.
    pub fn len(&self) -> usize
        ensures len { result ≡ length self.now.tuples }
        ensures small { result < 2 ^ 63 }
        ensures distinct { IsDistinct (eq_by_cmp tuple_cmp) self.now.tuples }
    {
        self.tuples.len()
    }

    /// The tuple that was found after so many others.
    pub fn tuple(&self, place: usize) -> &Tuple
        requires { place < length self.now.tuples }
        ensures { slice_get self.now.tuples place ≡ Some result.now.plain }
    {
        self.tuples.tuple(place)
    }

    /// Notes that a move leads from the tuple at a place to another, which is found now if it wasn't before.
    fn meet(
        &mut self,
        alloc: Global,
        from: usize,
        m: Move,
        tuple: &Tuple,
    ) -> Result<(), OutOfMemory>
        ensures { OnOk result (IsMet self.old from m tuple.now.plain self.new) }
    {
        let found = self.tuples.len();
        self.tuples.add(alloc, tuple)?;
        if found < self.tuples.len() {
            self.parents.push(Some((from, m)))?;
        }
        Ok(())
    }

    /// Goes over the tuple at a place, by its row: meets its images under its level moves, one after the other in `image`.
    /// It stops as soon as more tuples than the limit are found. Turned cuts are left out, since moves before them act as
    /// they do.
    pub fn go_over(
        &mut self,
        alloc: Global,
        place: usize,
        row: &Row,
        limit: u32,
        image: &mut Tuple,
    ) -> Result<(), OutOfMemory>
        requires tuple { IsTuple (row_tuple row.now) }
        requires row { IsRow row.now }
        requires stands { slice_get self.old.tuples place ≡ Some (row_tuple row.now) }
        requires rooms { HasRoomsFor image.old (row_tuple row.now) }
        ensures over { OnOk result ((root : TupleData) → HasGoneOver root self.old place → GoesOn root limit self.new (place + 1)) }
        ensures rooms { KeepsRooms image.old image.new }
    {
        for m in row.moves.items() {
            if is_turned_cut(m) {
                continue;
            }
            act_into(&row.tuple, m, image);
            self.meet(alloc, place, *m, image)?;
            if self.len() > limit as usize {
                return Ok(());
            }
        }
        Ok(())
    }

    /// The level of the root, once the search has gone over all tuples that it found. It takes the tuples out of their
    /// order, so the search can't go on.
    pub fn close(&mut self, alloc: Global, root: &Tuple) -> Result<Level, OutOfMemory>
        requires rank { root.now.plain.rank ≤ most_level_rank }
        requires whole { HasGoneOver root.now.plain self.old (length self.old.tuples) }
        ensures closed { IfOk result IsClosedLevel }
        ensures root { IfOk result (λ l. l.root ≡ root.now.plain) }
        ensures count { IfOk result (λ l. length l.tuples ≡ length self.old.tuples) }
    {
        let found = self.tuples.copies(alloc)?;
        self.tuples.sort()?;
        let places = other_places(alloc, &found, &self.tuples)?;
        let parents = moved_parents(alloc, &self.parents, &places)?;
        level_of(alloc, root, &self.tuples, parents)
    }
}
