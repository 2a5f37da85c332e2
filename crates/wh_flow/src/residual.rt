//! The residual network of a flow: what may still flow between letters.
ghost use Rattle.std.specs.Prelude.{◌≡◌, ◌≢◌, ℕ, ◌+◌, ◌-◌, ◌<◌, ◌≤◌, ◌⊎◌, ltb, length, get_or};
ghost use Rattle.wh_words.specs.LetterSets.{in_set};
ghost use Rattle.wh_words.specs.Flows.{IsWithin, place};
ghost use Rattle.wh_flow.specs.Tables.{IsTable, cell, pair_count, zero_table, with_cell};
ghost use Rattle.wh_flow.specs.Searches.{residual, goes_back, IsShifted};
ghost use Rattle.wh_flow.specs.Masks.{IsMaskOf, AreMasksOf};
ghost use Rattle.wh_flow.specs.Residuals.{IsLow, IsSameBut};

use crate::flow::Flow;
use crate::net::Net;
use crate::table::{Table, place_of};
use std::marker::Model;
use wh_words::{Letter, LetterSet};

/// The residual network of a flow within capacities, at the pairs from a place on. Contracts see the capacities, the
/// flow and the place. The letters to which residual edges lead are kept for each letter as a mask.
#[derive(Drop)]
pub(crate) struct ResidualNet<'a> {
    cap: &'a Table,
    flow: Table,
    from: usize,
    successors: [u64; 52],
}

impl<'a> Model for ResidualNet<'a> {
    ghost use Rattle.wh_flow.specs.Residuals.{IsResidualNet};
    ghost use Rattle.wh_flow.specs.Residuals as spec;

    ghost Value = { spec.ResidualNet };

    ghost view = { λ r. record { cap = r.cap.now; flow = r.flow; from = r.from } };

    ghost invariant = { λ r. IsResidualNet r.cap.now r.flow r.from r.successors };
}

impl<'a> ResidualNet<'a> {
    /// The residual network where nothing flows.
    pub fn without_flow(net: &'a Net) -> ResidualNet<'a>
        ensures { result ≡ record { cap = net.now.cells; flow = zero_table; from = 0 } }
    {
        ResidualNet {
            cap: net.cells(),
            flow: Table::zero(),
            from: 0,
            successors: net.neighbours(),
        }
    }

    /// The residual network of a flow, at all pairs.
    pub fn of(net: &'a Net, flow: &Flow) -> ResidualNet<'a>
        requires within { IsWithin (cell net.now.cells) (cell flow.now) }
        ensures { result ≡ record { cap = net.now.cells; flow = flow.now; from = 0 } }
    {
        let cap = net.cells();
        let mut successors = [0; 52];
        write_successors(cap, &flow.table, &mut successors);
        ResidualNet {
            cap,
            flow: flow.table.copy(),
            from: 0,
            successors,
        }
    }

    /// The flow.
    pub fn into_flow(self) -> Flow
        ensures same { result ≡ self.entry.flow }
        ensures table { IsTable result }
        ensures within { IsWithin (cell self.entry.cap) (cell result) }
    {
        Flow { table: self.flow }
    }

    /// What flows from `x` to `y`.
    pub fn flow_of(&self, x: usize, y: usize) -> u32
        requires x_within { x < 52 }
        requires y_within { y < 52 }
        ensures { result ≡ cell self.now.flow x y }
    {
        self.flow.get(x, y)
    }

    /// The letters to which residual edges lead from `v`.
    pub fn successors(&self, v: usize) -> LetterSet
        requires { v < 52 }
        ensures successors { IsMaskOf result (residual self.now.cap self.now.flow self.now.from v) }
        ensures within { IsWithin (cell self.now.cap) (cell self.now.flow) }
    {
        LetterSet::of_bits(self.successors[v])
    }

    /// The residual capacity from `x` to `y`: how much more can go.
    pub fn capacity(&self, x: usize, y: usize) -> u32
        requires x_within { x < 52 }
        requires y_within { y < 52 }
        ensures { result ≡ residual self.now.cap self.now.flow self.now.from x y }
    {
        residual_capacity(self.cap, &self.flow, self.from, x, y)
    }

    /// Takes `d` from `x` to `y`: less flows back, or more flows there.
    pub fn shift(&mut self, x: usize, y: usize, d: u32)
        requires x_within { x < 52 }
        requires y_within { y < 52 }
        requires some { 0 < d }
        requires fits { d ≤ residual self.old.cap self.old.flow self.old.from x y }
        ensures cap { self.new.cap ≡ self.old.cap }
        ensures from { self.new.from ≡ self.old.from }
        ensures shifted { IsShifted self.old.cap self.old.flow self.new.flow self.old.from x y d }
    {
        shift(self.cap, &mut self.flow, self.from, x, y, d);
        note_edge(self.cap, &self.flow, self.from, &mut self.successors, x, y);
        note_edge(self.cap, &self.flow, self.from, &mut self.successors, y, x);
    }

    /// Leaves out the first of the pairs.
    pub fn leave_out(&mut self, x: usize, y: usize)
        requires x_within { x < 52 }
        requires y_within { y < 52 }
        requires first { self.old.from ≡ place x y }
        ensures { self.new ≡ record { cap = self.old.cap; flow = self.old.flow; from = self.old.from + 1 } }
    {
        self.from += 1;
        note_edge(self.cap, &self.flow, self.from, &mut self.successors, x, y);
        note_edge(self.cap, &self.flow, self.from, &mut self.successors, y, x);
    }

    /// Leaves out the next pairs, at which nothing may flow.
    pub fn leave_out_empty(&mut self, pairs: usize)
        requires fits { self.old.from + pairs ≤ pair_count }
        requires empty { (x y : ℕ) → x < 52 → y < 52 → self.old.from ≤ place x y → place x y < self.old.from + pairs → cell self.old.cap x y ≡ 0 }
        ensures within { IsWithin (cell self.old.cap) (cell self.old.flow) }
        ensures same { self.new ≡ record { cap = self.old.cap; flow = self.old.flow; from = self.old.from + pairs } }
    {
        self.from += pairs;
    }

    /// Lets `d` less flow from `x` to `y`, a pair that was left out.
    pub fn lower(&mut self, x: usize, y: usize, d: u32)
        requires x_within { x < 52 }
        requires y_within { y < 52 }
        requires left_out { place x y < self.old.from }
        requires fits { d ≤ cell self.old.flow x y }
        ensures cap { self.new.cap ≡ self.old.cap }
        ensures from { self.new.from ≡ self.old.from }
        ensures table { IsTable self.old.flow }
        ensures flow { self.new.flow ≡ with_cell self.old.flow x y (cell self.old.flow x y - d) }
    {
        self.flow.take(x, y, d);
    }
}

/// Writes for each letter the letters to which residual edges lead.
fn write_successors(cap: &Table, flow: &Table, successors: &mut [u64])
    requires size { length successors.old ≡ 52 }
    requires within { IsWithin (cell cap.now) (cell flow.now) }
    ensures size { length successors.new ≡ 52 }
    ensures successors { AreMasksOf successors.new (residual cap.now flow.now 0) }
{
    for v in 0..52 {
        successors[v] = successors_of(cap, flow, v).bits();
    }
}

/// The letters to which residual edges lead from `v`, at all pairs.
pub(crate) fn successors_of(cap: &Table, flow: &Table, v: usize) -> LetterSet
    requires v_within { v < 52 }
    requires within { IsWithin (cell cap.now) (cell flow.now) }
    ensures { IsMaskOf result (residual cap.now flow.now 0 v) }
{
    let mut successors = LetterSet::empty();
    for y in 0..52 {
        if residual_capacity(cap, flow, 0, v, y) > 0 {
            successors = successors.with(Letter::of_index(y as u8));
        }
    }
    successors
}

/// Notes in the mask of `x` whether a residual edge leads to `y`.
fn note_edge(cap: &Table, flow: &Table, from: usize, successors: &mut [u64], x: usize, y: usize)
    requires size { length successors.old ≡ 52 }
    requires x_within { x < 52 }
    requires y_within { y < 52 }
    requires within { IsWithin (cell cap.now) (cell flow.now) }
    ensures size { length successors.new ≡ 52 }
    ensures here { in_set (get_or successors.new x 0) y ≡ ltb 0 (residual cap.now flow.now from x y) }
    ensures others { (v z : ℕ) → v < 52 → z < 64 → (v ≢ x) ⊎ (z ≢ y) → in_set (get_or successors.new v 0) z ≡ in_set (get_or successors.old v 0) z }
{
    successors[x] = noted(
        successors[x],
        y,
        residual_capacity(cap, flow, from, x, y) > 0,
    );
}

/// The mask of a set of letters with `y` where an edge leads to it, and without it where none does.
fn noted(mask: u64, y: usize, leads: bool) -> u64
    requires { y < 52 }
    ensures here { in_set result y ≡ leads }
    ensures others { (z : ℕ) → z < 64 → z ≢ y → in_set result z ≡ in_set mask z }
{
    let set = LetterSet::of_bits(mask);
    let letter = Letter::of_index(y as u8);
    if leads {
        set.with(letter).bits()
    } else {
        set.without(letter).bits()
    }
}

/// The residual capacity from `x` to `y`, at the pairs from a place on: how much more can go.
fn residual_capacity(cap: &Table, flow: &Table, from: usize, x: usize, y: usize) -> u32
    requires x_within { x < 52 }
    requires y_within { y < 52 }
    requires within { IsWithin (cell cap.now) (cell flow.now) }
    ensures { result ≡ residual cap.now flow.now from x y }
{
    if is_back(flow, from, x, y) {
        flow.get(y, x)
    } else if from <= place_of(x, y) {
        cap.get(x, y) - flow.get(x, y)
    } else {
        0
    }
}

/// Takes `d` from `x` to `y`: less flows back, or more flows there.
fn shift(cap: &Table, flow: &mut Table, from: usize, x: usize, y: usize, d: u32)
    requires low { IsLow cap.now }
    requires x_within { x < 52 }
    requires y_within { y < 52 }
    requires some { 0 < d }
    requires fits { d ≤ residual cap.now flow.old from x y }
    requires within { IsWithin (cell cap.now) (cell flow.old) }
    ensures table { IsTable flow.new }
    ensures shifted { IsShifted cap.now flow.old flow.new from x y d }
    ensures kept { IsSameBut flow.old flow.new x y }
{
    if is_back(flow, from, x, y) {
        flow.take(y, x, d);
    } else {
        flow.add(x, y, d);
    }
}

/// Whether something flows from `y` to `x`, at a pair from the place on.
fn is_back(flow: &Table, from: usize, x: usize, y: usize) -> bool
    requires x_within { x < 52 }
    requires y_within { y < 52 }
    ensures { result ≡ goes_back flow.now from x y }
{
    from <= place_of(y, x) && 0 < flow.get(y, x)
}
