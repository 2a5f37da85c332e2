//! Which cuts keep the length of a tuple, by capacities and degrees, without memory.
ghost use Rattle.std.specs.Prelude.{◌≡◌, ◌*◌, ◌^◌, ◌≤◌, ◌<◌, length};
ghost use Rattle.wh_words.specs.Limits.{most_stabiliser_rank};
ghost use Rattle.wh_words.specs.Moves.{IsCut};
ghost use Rattle.wh_words.specs.Flows.{degree};
ghost use Rattle.wh_flow.specs.Nets.{IsNet};
ghost use Rattle.wh_flow.specs.Tables.{cell};
ghost use Rattle.wh_graph.specs.CapacityTables.{HasTable, set_capacity};
ghost use Rattle.wh_relators.specs.Measures.{AreCapacities, told};

use crate::cut::Cut;
use wh_flow::Net;
use wh_graph::{cap, count_sets, deg, graph};
use wh_words::{Letter, LetterSet, Rank, Tuple};

/// How many sets of letters there are in the greatest rank of stabilisers.
const SETS: usize = 256;

/// How many letters there are in it.
const LETTERS: usize = 8;

/// The capacities of all sets of letters of a tuple's rank, by their masks, and the degrees of its letters.
#[derive(Drop)]
pub(crate) struct Capacities {
    pub(crate) rank: Rank,
    pub(crate) sets: [u32; SETS],
    pub(crate) degrees: [u32; LETTERS],
}

/// Writes the capacity of each set below a number.
#[tactic(auto, using(crate::proofs::Measured::table_none, crate::proofs::Measured::table_next))]
fn measure_sets(sets: &mut [u32], net: &Net, count: usize)
    requires { count ≤ length sets.old }
    ensures sets { HasTable (set_capacity net.now.cells) count sets.new }
    ensures same_length { length sets.new ≡ length sets.old }
{
    for set in 0..count {
        sets[set] = cap(net, LetterSet::of_bits(set as u64));
    }
}

/// Writes the degree of each letter below a number.
#[tactic(auto, using(crate::proofs::Measured::table_none, crate::proofs::Measured::table_next))]
fn measure_letters(degrees: &mut [u32], net: &Net, count: u8)
    requires room { count ≤ length degrees.old }
    requires few { count ≤ 2 * most_stabiliser_rank }
    ensures degrees { HasTable (degree (cell net.now.cells)) count degrees.new }
    ensures same_length { length degrees.new ≡ length degrees.old }
{
    for index in 0..count {
        degrees[index as usize] = deg(net, Letter::of_index(index));
    }
}

impl Capacities {
    /// Those of a tuple.
    pub(crate) fn of(tuple: &Tuple) -> Capacities
        requires { tuple.now.plain.rank ≤ most_stabiliser_rank }
        ensures { AreCapacities tuple.now.plain result }
    {
        let net = graph(tuple);
        let letters = 2 * tuple.rank().get();
        let mut sets = [0; SETS];
        measure_sets(&mut sets, &net, count_sets(letters));
        let mut degrees = [0; LETTERS];
        measure_letters(&mut degrees, &net, letters);
        Capacities {
            rank: tuple.rank(),
            sets,
            degrees,
        }
    }

    /// Whether a cut keeps the length: where the capacity of its set is the degree of its multiplier (Lyndon and Schupp,
    /// I.4).
    pub(crate) fn keeps(&self, x: Cut) -> bool
        requires sets { 2 ^ (2 * self.now.rank) ≤ length self.now.sets }
        requires degrees { 2 * self.now.rank ≤ length self.now.degrees }
        requires cut { IsCut self.now.rank x.mult x.set }
        ensures { result ≡ told self.now x }
    {
        self.sets[x.set.bits() as usize] == self.degrees[x.mult.index() as usize]
    }
}
