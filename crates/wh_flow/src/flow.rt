//! Flows: what goes from each letter to each other one.
ghost use Rattle.std.specs.Prelude.{◌≡◌, ◌<◌, ◌≤◌, ◌*◌, ℤ, pos, ◌+ℤ◌};
ghost use Rattle.wh_words.specs.Flows.{outflow, inflow};
ghost use Rattle.wh_flow.specs.Tables.{cell, zero_table, with_cell};

use crate::table::Table;
use std::marker::Model;
use wh_words::Letter;

/// What flows from each letter to each other one. Contracts see the table of these numbers. Any numbers are allowed.
#[derive(Drop, Clone)]
pub struct Flow {
    pub(crate) table: Table,
}

impl Model for Flow {
    ghost use Rattle.std.specs.Prelude.{ℕ, List};
    ghost use Rattle.wh_flow.specs.Tables.{IsTable};

    ghost Value = { List ℕ };

    ghost view = { λ f. f.table };

    ghost invariant = { λ f. IsTable f.table };
}

impl Flow {
    /// The flow of nothing.
    pub fn zero() -> Flow
        ensures { result ≡ zero_table }
    {
        Flow {
            table: Table::zero(),
        }
    }

    /// What flows from `x` to `y`.
    pub fn get(&self, x: Letter, y: Letter) -> u32
        ensures { result ≡ cell self.now x y }
    {
        self.table.get(x.index() as usize, y.index() as usize)
    }

    /// Lets `n` flow from `x` to `y`.
    pub fn set(&mut self, x: Letter, y: Letter, n: u32)
        ensures { self.new ≡ with_cell self.old x y n }
    {
        self.table.set(x.index() as usize, y.index() as usize, n);
    }

    /// The value from `s`: what flows out of `s` less what flows into it.
    pub fn value(&self, s: Letter) -> i64
        ensures { pos (inflow (cell self.now) s) +ℤ result ≡ pos (outflow (cell self.now) s) }
    {
        let s = s.index() as usize;
        sum_out(&self.table, s) as i64 - sum_in(&self.table, s) as i64
    }
}

/// What flows out of `x`.
#[tactic(auto, using(crate::proofs::Sums::sum_more, crate::proofs::Sums::sum_none))]
pub(crate) fn sum_out(flow: &Table, x: usize) -> u64
    requires x_within { x < 52 }
    ensures value { result ≡ outflow (cell flow.now) x }
    ensures most { result ≤ 52 * 4294967295 }
{
    let mut total = 0;
    for y in 0..52 {
        total += flow.get(x, y) as u64;
    }
    total
}

/// What flows into `x`.
#[tactic(auto, using(crate::proofs::Sums::sum_more, crate::proofs::Sums::sum_none))]
pub(crate) fn sum_in(flow: &Table, x: usize) -> u64
    requires x_within { x < 52 }
    ensures value { result ≡ inflow (cell flow.now) x }
    ensures most { result ≤ 52 * 4294967295 }
{
    let mut total = 0;
    for y in 0..52 {
        total += flow.get(y, x) as u64;
    }
    total
}
