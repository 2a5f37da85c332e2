//! The search for a way along residual edges, and what it takes along the way.
ghost use Rattle.std.specs.Prelude.{◌≡◌, ◌≢◌, ℕ, ◌<◌, ◌≤◌, true, false, MatchOption};
ghost use Rattle.std.specs.Int.{bit_at};
ghost use Rattle.wh_words.specs.LetterSets.{in_set};
ghost use Rattle.wh_flow.specs.Masks.{IsFresh, IsAllSeen};
ghost use Rattle.wh_flow.specs.Searches.{Grew, IsPushed, IsSearched};

use crate::residual::ResidualNet;
use wh_words::{Letter, LetterSet};

/// A search for a sink: the letters that it saw, and those from which the sink may be one edge away. The latter are a
/// hint, which no clause speaks of: any letter that wasn't seen may come first.
#[derive(Clone, Copy)]
pub(crate) struct Search {
    pub sink: Letter,
    pub seen: LetterSet,
    near_sink: LetterSet,
}

impl Search {
    /// A search that saw nothing.
    pub fn new(sink: Letter) -> Search
        ensures sink { result.sink ≡ sink }
        ensures seen { result.seen ≡ 0 }
    {
        Search {
            sink,
            seen: LetterSet::empty(),
            near_sink: LetterSet::of_bits(u64::MAX),
        }
    }

    /// Takes at most `limit` from `v` to the sink, by letters that weren't seen, and answers how much. Zero says that no
    /// way leads there; then the set has what was reached.
    pub fn push(&mut self, residual: &mut ResidualNet, v: usize, limit: u32) -> u32
        requires v_within { v < 52 }
        requires fresh { in_set self.old.seen v ≡ false }
        requires some { 0 < limit }
        ensures sink { self.new.sink ≡ self.old.sink }
        ensures grew { Grew self.old.seen self.new.seen }
        ensures most { result ≤ limit }
        ensures cap { residual.new.cap ≡ residual.old.cap }
        ensures from { residual.new.from ≡ residual.old.from }
        ensures pushed { 0 < result → IsPushed residual.old.cap residual.old.flow residual.new.flow self.old.seen residual.old.from v self.old.sink result }
        ensures same { result ≡ 0 → residual.new ≡ residual.old }
        ensures searched { result ≡ 0 → IsSearched residual.old.cap residual.old.flow self.old.seen self.new.seen residual.old.from v self.old.sink }
    {
        let successors = residual.successors(v);
        if v == self.sink.index() as usize {
            return limit;
        }
        self.enter(v, successors);
        while let Some(y) = self.next(successors) {
            let d = self.push(residual, y, lesser(limit, residual.capacity(v, y)));
            if d > 0 {
                residual.shift(v, y, d);
                return d;
            }
        }
        0
    }

    /// Adds a letter to those that were seen, and notes whether the sink is one edge away.
    fn enter(&mut self, v: usize, successors: LetterSet)
        requires { v < 52 }
        ensures sink { self.new.sink ≡ self.old.sink }
        ensures same { bit_at self.new.seen v ≡ 1 }
        ensures others { (i : ℕ) → i ≢ v → bit_at self.new.seen i ≡ bit_at self.old.seen i }
    {
        let letter = Letter::of_index(v as u8);
        self.seen = self.seen.with(letter);
        if !successors.contains(self.sink) {
            self.near_sink = self.near_sink.without(letter);
        }
    }

    /// The letter that is tried next, of those to which residual edges lead: the sink, or else one from which it may be
    /// one edge away, or else any that wasn't seen.
    fn next(&self, successors: LetterSet) -> Option<usize>
        ensures { MatchOption result (IsAllSeen successors self.now.seen) (IsFresh successors self.now.seen) }
    {
        let fresh = successors.bits() & !self.seen.bits();
        let near = prefer(fresh, self.near_sink.bits());
        lowest_bit(prefer(near, 1 << self.sink.index()))
    }
}

/// The part of a set that is in another one, or the whole set where no part is.
fn prefer(set: u64, other: u64) -> u64
    ensures none { result ≡ 0 → set ≡ 0 }
    ensures part { (y : ℕ) → in_set result y ≡ true → in_set set y ≡ true }
{
    let part = set & other;
    if part == 0 { set } else { part }
}

/// The lesser of two amounts.
fn lesser(a: u32, b: u32) -> u32
    ensures first { result ≤ a }
    ensures second { result ≤ b }
    ensures some { 0 < a → 0 < b → 0 < result }
{
    if a < b { a } else { b }
}

/// The first letter of a set that isn't in another.
pub(crate) fn first_fresh(set: LetterSet, seen: LetterSet) -> Option<usize>
    ensures { MatchOption result (IsAllSeen set seen) (IsFresh set seen) }
{
    lowest_bit(set.bits() & !seen.bits())
}

/// The place of the lowest bit.
fn lowest_bit(set: u64) -> Option<usize>
    ensures { MatchOption result (set ≡ 0) (λ y. (y < 64) × (in_set set y ≡ true)) }
{
    if set == 0 {
        None
    } else {
        Some(set.trailing_zeros() as usize)
    }
}
