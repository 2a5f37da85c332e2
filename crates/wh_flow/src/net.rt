//! Networks: how many edges join each two letters.
ghost use Rattle.std.specs.Prelude.{◌≡◌, ◌≢◌, ℕ, ◌+◌, ◌*◌, ◌<◌, ◌≤◌, ◌⊎◌, true, cond, length, get_or};
ghost use Rattle.wh_words.specs.Limits.{most_letters};
ghost use Rattle.wh_words.specs.LetterSets.{in_set};
ghost use Rattle.wh_words.specs.Edges.{joins};
ghost use Rattle.wh_flow.specs.Tables.{IsTable, cell, zero_table};
ghost use Rattle.wh_flow.specs.Nets.{edge_count, IsNet};
ghost use Rattle.wh_flow.specs.Searches.{IsOfLetters};
ghost use Rattle.wh_flow.specs.Masks.{AreMasksOf};
ghost use Rattle.wh_flow.specs.Residuals.{IsLow};

use crate::table::Table;
use std::marker::Model;
use wh_words::{Letter, LetterSet, Rank};

/// A network on the letters of a rank: the number of edges between each two letters. Edges have no direction, join two
/// different letters, and there are at most 4,096 of them. Contracts see the rank and the table of these numbers. The
/// neighbours of each letter are kept as a mask too.
#[derive(Drop, Clone)]
pub struct Net {
    rank: Rank,
    cells: Table,
    neighbours: [u64; 52],
}

impl Model for Net {
    ghost use Rattle.wh_flow.specs.Nets.{IsNet};
    ghost use Rattle.wh_flow.specs.Nets as spec;
    ghost use Rattle.wh_flow.specs.Tables.{cell};
    ghost use Rattle.wh_flow.specs.Masks.{AreMasksOf};

    ghost Value = { spec.Net };

    ghost view = { λ n. record { rank = n.rank; cells = n.cells } };

    ghost invariant = { λ n. IsNet (record { rank = n.rank; cells = n.cells }) × AreMasksOf n.neighbours (cell n.cells) };
}

impl Net {
    /// The network of a rank without edges.
    pub fn empty(rank: Rank) -> Net
        ensures same { result ≡ record { rank = rank; cells = zero_table } }
        ensures none { edge_count result.cells ≡ 0 }
    {
        // The rank is at most 26, which the proof takes from this call.
        rank.get();
        Net {
            rank,
            cells: Table::zero(),
            neighbours: [0; 52],
        }
    }

    /// The rank.
    pub fn rank(&self) -> Rank
        ensures same { result ≡ self.now.rank }
        ensures net { IsNet self.now }
    {
        self.rank
    }

    /// How many edges join two letters.
    pub fn cap_of(&self, x: Letter, y: Letter) -> u32
        ensures { result ≡ cell self.now.cells x y }
    {
        self.cells.get(x.index() as usize, y.index() as usize)
    }

    /// Adds an edge between two different letters of the rank, to a network with fewer than 4,096 edges.
    pub fn add_edge(&mut self, x: Letter, y: Letter)
        requires apart { x ≢ y }
        requires x_of_rank { x < 2 * self.old.rank }
        requires y_of_rank { y < 2 * self.old.rank }
        requires few { edge_count self.old.cells < most_letters }
        ensures rank { self.new.rank ≡ self.old.rank }
        ensures edge { (u v : ℕ) → u < 52 → v < 52 → cell self.new.cells u v ≡ cell self.old.cells u v + cond (joins u v (x, y)) 1 0 }
        ensures count { edge_count self.new.cells ≡ edge_count self.old.cells + 1 }
    {
        let x = x.index() as usize;
        let y = y.index() as usize;
        join(&self.cells, &mut self.neighbours, x, y);
        write_edge(&mut self.cells, x, y);
    }

    /// The capacities.
    pub(crate) fn cells(&self) -> &Table
        ensures cells { result.now ≡ self.now.cells }
        ensures low { IsLow result.now }
        ensures of_letters { IsOfLetters (2 * self.now.rank) result.now }
    {
        &self.cells
    }

    /// The neighbours of each letter, as a mask.
    pub(crate) fn neighbours(&self) -> [u64; 52]
        ensures { AreMasksOf result (cell self.now.cells) }
    {
        self.neighbours
    }

    /// How many letters the rank has.
    pub(crate) fn letters(&self) -> usize
        ensures value { result ≡ 2 * self.now.rank }
        ensures few { result ≤ 52 }
        ensures of_letters { IsOfLetters (2 * self.now.rank) self.now.cells }
    {
        2 * self.rank.get() as usize
    }
}

/// Adds one at `x` and `y`, and one at `y` and `x`.
fn write_edge(cells: &mut Table, x: usize, y: usize)
    requires x_within { x < 52 }
    requires y_within { y < 52 }
    requires apart { x ≢ y }
    requires low { cell cells.old x y ≤ most_letters }
    requires low_back { cell cells.old y x ≤ most_letters }
    ensures table { IsTable cells.new }
    ensures edge { (u v : ℕ) → u < 52 → v < 52 → cell cells.new u v ≡ cell cells.old u v + cond (joins u v (x, y)) 1 0 }
{
    cells.add(x, y, 1);
    cells.add(y, x, 1);
}

/// Makes two letters neighbours, where no edge joins them yet.
fn join(cells: &Table, neighbours: &mut [u64], x: usize, y: usize)
    requires x_within { x < 52 }
    requires y_within { y < 52 }
    requires apart { x ≢ y }
    requires symmetric { cell cells.now x y ≡ cell cells.now y x }
    requires size { length neighbours.old ≡ 52 }
    requires masks { AreMasksOf neighbours.old (cell cells.now) }
    ensures size { length neighbours.new ≡ 52 }
    ensures masks { AreMasksOf neighbours.new (λ u v. cell cells.now u v + cond (joins u v (x, y)) 1 0) }
{
    if cells.get(x, y) == 0 {
        add_neighbour(neighbours, x, y);
        add_neighbour(neighbours, y, x);
    }
}

/// Adds `y` to the neighbours of `x`.
fn add_neighbour(neighbours: &mut [u64], x: usize, y: usize)
    requires size { length neighbours.old ≡ 52 }
    requires x_within { x < 52 }
    requires y_within { y < 52 }
    ensures size { length neighbours.new ≡ 52 }
    ensures here { in_set (get_or neighbours.new x 0) y ≡ true }
    ensures others { (v z : ℕ) → v < 52 → z < 64 → (v ≢ x) ⊎ (z ≢ y) → in_set (get_or neighbours.new v 0) z ≡ in_set (get_or neighbours.old v 0) z }
{
    neighbours[x] = LetterSet::of_bits(neighbours[x])
        .with(Letter::of_index(y as u8))
        .bits();
}
