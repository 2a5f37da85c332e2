//! The search for the first walks of a level. It goes over the places in the order in which it finds them, and at each
//! over the moves in their order, so that it finds each place on its first walk.
ghost use Rattle.std.specs.Prelude.{◌≡◌, ◌<◌, length, map, slice_get, MatchOption, IfOk, OnOk};
ghost use Rattle.std.specs.List.{All};
ghost use Rattle.std.specs.Bool.{MatchBool};
ghost use Rattle.wh_words.specs.Tuples.{TupleData, IsTuple};
ghost use Rattle.wh_words.specs.Levels.{InLevel, IsLevel};
ghost use Rattle.wh_expand.specs.Rows.{IsRow, row_tuple};
ghost use Rattle.wh_level.specs.Trees.{AreParents};
ghost use Rattle.wh_level.specs.Sealings.{IsMissed};
ghost use Rattle.wh_level.specs.PlacedTuples.{IsPlacing, AreRowNumbers, HasRoomsFor, KeepsRooms};
ghost use Rattle.wh_level.specs.Searches as spec;
ghost use Rattle.wh_level.specs.Searches.{HasCells, GoesOver, IsAbsentImage};

use crate::placing::{image_place, row_numbers};
use std::alloc::Global;
use std::marker::Model;
use wh_expand::{Row, is_turned_cut};
use wh_moves::Move;
use wh_sets::TupleSet;
use wh_words::{OutOfMemory, Tuple};

/// What the search knows: for each place its parent and whether it was found, and the places that were found, in order.
#[derive(Drop)]
struct Search {
    parents: Vec<Option<(usize, Move)>>,
    seen: Vec<bool>,
    queue: Vec<usize>,
}

impl Model for Search {
    ghost use Rattle.wh_level.specs.Searches as spec;

    ghost Value = { spec.SearchData };

    ghost view = { λ s. record { parents = s.parents.items; seen = s.seen.items; queue = s.queue.items } };
}

impl Search {
    /// The search that has found the place of the root alone, of so many places.
    fn start(alloc: Global, count: usize, root: usize) -> Result<Search, OutOfMemory>
        requires { root < count }
        ensures { IfOk result (λ s. s ≡ spec.started count root) }
    {
        let parents = vec![in alloc; None; count]?;
        let mut seen = vec![in alloc; false; count]?;
        seen[root] = true;
        let queue = vec![in alloc; root]?;
        Ok(Search {
            parents,
            seen,
            queue,
        })
    }

    /// The place that was found after so many others.
    fn found(&self, at: usize) -> Option<usize>
        ensures { result ≡ slice_get self.now.queue at }
    {
        self.queue.get(at).copied()
    }

    /// Notes that a move leads from a place to another, which is found now if it wasn't before.
    fn follow(&mut self, from: usize, m: Move, to: usize) -> Result<(), OutOfMemory>
        requires parents { to < length self.old.parents }
        requires seen { to < length self.old.seen }
        ensures { OnOk result (self.new ≡ spec.follow self.old from m to) }
    {
        if !self.seen[to] {
            self.seen[to] = true;
            self.parents[to] = Some((from, m));
            self.queue.push(to)?;
        }
        Ok(())
    }

    /// Follows all moves of the row of a place, turned cuts by the moves before them. False comes where an image has no
    /// place.
    fn expand(
        &mut self,
        places: &TupleSet,
        from: usize,
        row: &Row,
        image: &mut Tuple,
    ) -> Result<bool, OutOfMemory>
        requires tuple { IsTuple (row_tuple row.now) }
        requires row { IsRow row.now }
        requires stands { slice_get places.now from ≡ Some (row_tuple row.now) }
        requires rooms { HasRoomsFor image.old (row_tuple row.now) }
        requires cells { HasCells (length places.now) self.old }
        ensures over { IfOk result (λ whole. MatchBool whole (GoesOver places.now from self.old self.new) ((u : TupleData) × IsAbsentImage places.now (row_tuple row.now) u)) }
        ensures cells { OnOk result (HasCells (length places.now) self.new) }
        ensures rooms { KeepsRooms image.old image.new }
    {
        for m in row.moves.items() {
            if is_turned_cut(m) {
                continue;
            }
            match image_place(places, &row.tuple, m, image) {
                None => return Ok(false),
                Some(to) => self.follow(from, *m, to)?,
            }
        }
        Ok(true)
    }

    /// The parents of the places.
    fn into_parents(self) -> Vec<Option<(usize, Move)>>
        ensures { result.items ≡ self.parents }
    {
        let Search { parents, .. } = self;
        parents
    }
}

/// The parents of the tuples by their places, at which rows with these numbers stand.
fn parents_by(
    alloc: Global,
    root: &Tuple,
    rows: &[Row],
    numbers: &[usize],
    places: &TupleSet,
    image: &mut Tuple,
) -> Result<Option<Vec<Option<(usize, Move)>>>, OutOfMemory>
    requires root { IsTuple root.now.plain }
    requires rows { All IsRow rows.now }
    requires placing { IsPlacing (map row_tuple rows.now) places.now }
    requires numbers { AreRowNumbers (map row_tuple rows.now) places.now numbers.now }
    requires within { All (InLevel root.now.plain) places.now }
    requires rooms { HasRoomsFor image.old root.now.plain }
    ensures parents { IfOk result (λ o. MatchOption o ((t : TupleData) × IsMissed root.now.plain places.now t) (λ p. IsLevel root.now.plain places.now × AreParents root.now.plain places.now p.items)) }
    ensures rooms { KeepsRooms image.old image.new }
{
    let Some(start) = places.place(root) else {
        return Ok(None);
    };
    let mut search = Search::start(alloc, places.len(), start)?;
    let mut at = 0;
    while let Some(from) = search.found(at) {
        let number = numbers[from];
        if !search.expand(places, from, &rows[number], image)? {
            return Ok(None);
        }
        at += 1;
    }
    Ok(Some(search.into_parents()))
}

/// The parents of the tuples by their places, which are the whole level. None comes where they miss a tuple of it.
pub(crate) fn first_parents(
    alloc: Global,
    root: &Tuple,
    rows: &[Row],
    places: &TupleSet,
    image: &mut Tuple,
) -> Result<Option<Vec<Option<(usize, Move)>>>, OutOfMemory>
    requires root { IsTuple root.now.plain }
    requires rows { All IsRow rows.now }
    requires placing { IsPlacing (map row_tuple rows.now) places.now }
    requires within { All (InLevel root.now.plain) places.now }
    requires rooms { HasRoomsFor image.old root.now.plain }
    ensures parents { IfOk result (λ o. MatchOption o ((t : TupleData) × IsMissed root.now.plain places.now t) (λ p. IsLevel root.now.plain places.now × AreParents root.now.plain places.now p.items)) }
    ensures rooms { KeepsRooms image.old image.new }
{
    let numbers = row_numbers(alloc, rows, places)?;
    parents_by(alloc, root, rows, &numbers, places, image)
}
