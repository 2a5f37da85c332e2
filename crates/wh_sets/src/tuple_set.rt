//! Sets of tuples.
ghost use Rattle.std.specs.Prelude.{◌≡◌, ◌↔◌, ◌<◌, ◌^◌, [], length, map, slice_get, Some, Contains, IsTrue, MatchOption, IfOk, OnOk, OnErr};
ghost use Rattle.std.specs.List.{IsDistinct};
ghost use Rattle.std.specs.List.Sorted.{IsStrictlySortedBy, IsPermutation};
ghost use Rattle.std.specs.Ordering.{eq_by_cmp};
ghost use Rattle.wh_words.specs.Tuples.{tuple_cmp};
ghost use Rattle.wh_sets.specs.TupleSets.{IsAdded, AreAdded};

use indexmap::IndexSet;
use std::alloc::Global;
use std::marker::Model;
use wh_words::{OutOfMemory, Tuple};

/// Tuples in the order in which they came, each once and found by its hash. Contracts see the list of their data, which is
/// distinct.
#[derive(Drop)]
pub struct TupleSet {
    tuples: IndexSet<Tuple>,
}

impl Model for TupleSet {
    ghost use Rattle.std.specs.Prelude.{map, List};
    ghost use Rattle.std.specs.Coded.{coded_list};
    ghost use Rattle.wh_words.specs.Tuples as spec;

    ghost Value = { List spec.TupleData };

    ghost coded = { coded_list spec.tuple_data_code };

    ghost view = { λ s. map (λ t. t.plain) s.tuples.keys };
}

impl TupleSet {
    /// No tuples.
    pub fn new(alloc: Global) -> TupleSet
        ensures { result ≡ [] }
    {
        TupleSet {
            tuples: IndexSet::new(alloc),
        }
    }

    /// Copies of the tuples of a slice, in the order of their first places in it.
    pub fn of(alloc: Global, tuples: &[Tuple]) -> Result<TupleSet, OutOfMemory>
        ensures { IfOk result (AreAdded [] (map (λ t. t.plain) tuples.now)) }
    {
        let mut set = TupleSet::new(alloc);
        for tuple in tuples {
            set.add(alloc, tuple)?;
        }
        Ok(set)
    }

    /// How many tuples there are.
    pub fn len(&self) -> usize
        ensures len { result ≡ length self.now }
        ensures small { result < 2 ^ 63 }
        ensures distinct { IsDistinct (eq_by_cmp tuple_cmp) self.now }
    {
        self.tuples.len()
    }

    /// The tuple at a place, counted from 0.
    pub fn tuple(&self, place: usize) -> &Tuple
        requires { place < length self.now }
        ensures { slice_get self.now place ≡ Some result.now.plain }
    {
        self.tuples.get_index(place).unwrap()
    }

    /// The place of a tuple, counted from 0. None exactly where it isn't there. It takes no memory.
    pub fn place(&self, tuple: &Tuple) -> Option<usize>
        ensures { MatchOption result (¬ (Contains self.now tuple.now.plain)) (λ v. slice_get self.now v ≡ Some tuple.now.plain) }
    {
        self.tuples.get_index_of(tuple)
    }

    /// Whether a tuple is there. It takes no memory.
    pub fn has(&self, tuple: &Tuple) -> bool
        ensures { IsTrue result ↔ Contains self.now tuple.now.plain }
    {
        self.tuples.contains(tuple)
    }

    /// Puts a copy of a tuple behind the others, where it wasn't there. After an error the set is as it was.
    pub fn add(&mut self, alloc: Global, tuple: &Tuple) -> Result<(), OutOfMemory>
        ensures added { OnOk result (IsAdded self.old tuple.now.plain self.new) }
        ensures kept { OnErr result (self.new ≡ self.old) }
    {
        if !self.tuples.contains(tuple) {
            self.tuples.insert(tuple.copy(alloc)?)?;
        }
        Ok(())
    }

    /// Puts the tuples in order. After an error they are as they were.
    pub fn sort(&mut self) -> Result<(), OutOfMemory>
        ensures sorted { OnOk result (IsStrictlySortedBy tuple_cmp self.new) }
        ensures same { OnOk result (IsPermutation self.old self.new) }
        ensures kept { OnErr result (self.new ≡ self.old) }
    {
        self.tuples.sort()?;
        Ok(())
    }

    /// Copies of the tuples by their places.
    pub fn copies(&self, alloc: Global) -> Result<Vec<Tuple>, OutOfMemory>
        ensures { IfOk result (λ v. map (λ t. t.plain) v.items ≡ self.now) }
    {
        let mut copies = Vec::new(alloc);
        for place in 0..self.len() {
            copies.push(self.tuple(place).copy(alloc)?)?;
        }
        Ok(copies)
    }
}
