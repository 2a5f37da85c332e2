//! Tables: a number for each two letters.
ghost use Rattle.std.specs.Prelude.{◌≡◌, ℕ, ◌+◌, ◌-◌, ◌^◌, ◌<◌, ◌≤◌};
ghost use Rattle.wh_words.specs.Flows.{place};
ghost use Rattle.wh_flow.specs.Tables.{IsTable, cell, pair_count, zero_table, with_cell};

use std::marker::Model;

/// A number for each two letters, by their indices. Contracts see the list of the numbers, row by row.
#[derive(Drop, Clone)]
pub(crate) struct Table {
    numbers: [u32; 2704],
}

impl Model for Table {
    ghost use Rattle.std.specs.Prelude.{ℕ, List};

    ghost Value = { List ℕ };

    ghost view = { λ t. t.numbers };
}

impl Table {
    /// The table of zeros.
    pub fn zero() -> Table
        ensures { result ≡ zero_table }
    {
        Table { numbers: [0; 2704] }
    }

    /// A second table of the same numbers.
    pub fn copy(&self) -> Table
        ensures { result ≡ self.now }
    {
        Table {
            numbers: self.numbers,
        }
    }

    /// The number at `x` and `y`.
    pub fn get(&self, x: usize, y: usize) -> u32
        requires x_within { x < 52 }
        requires y_within { y < 52 }
        ensures { result ≡ cell self.now x y }
    {
        self.numbers[place_of(x, y)]
    }

    /// Writes `n` at `x` and `y`.
    pub fn set(&mut self, x: usize, y: usize, n: u32)
        requires x_within { x < 52 }
        requires y_within { y < 52 }
        ensures { self.new ≡ with_cell self.old x y n }
    {
        self.numbers[place_of(x, y)] = n;
    }

    /// Adds `d` to the number at `x` and `y`.
    pub fn add(&mut self, x: usize, y: usize, d: u32)
        requires x_within { x < 52 }
        requires y_within { y < 52 }
        requires fits { cell self.old x y + d < 2 ^ 32 }
        ensures table { IsTable self.old }
        ensures sum { self.new ≡ with_cell self.old x y (cell self.old x y + d) }
    {
        self.numbers[place_of(x, y)] += d;
    }

    /// Takes `d` from the number at `x` and `y`.
    pub fn take(&mut self, x: usize, y: usize, d: u32)
        requires x_within { x < 52 }
        requires y_within { y < 52 }
        requires fits { d ≤ cell self.old x y }
        ensures table { IsTable self.old }
        ensures rest { self.new ≡ with_cell self.old x y (cell self.old x y - d) }
    {
        self.numbers[place_of(x, y)] -= d;
    }
}

/// The place of a pair in the order of pairs.
pub(crate) fn place_of(x: usize, y: usize) -> usize
    requires x_within { x < 52 }
    requires y_within { y < 52 }
    ensures same { result ≡ place x y }
    ensures within { result < pair_count }
{
    52 * x + y
}
