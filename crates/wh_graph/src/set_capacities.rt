//! The capacities of all sets of letters of a rank.
ghost use Rattle.std.specs.Prelude.{◌≡◌, ◌+◌, ◌*◌, ◌^◌, ◌<◌, ◌≤◌, length, IfOk};
ghost use Rattle.wh_words.specs.Limits.{most_level_rank};
ghost use Rattle.wh_flow.specs.Nets.{IsNet};
ghost use Rattle.wh_graph.specs.CapacityTables.{IsTable, HasTable, edges_into, set_capacity};

use crate::capacity::deg;
use std::alloc::Global;
use wh_flow::Net;
use wh_words::{Letter, OutOfMemory};

/// How many sets there are of so many letters, at most those of the greatest rank of levels.
pub fn count_sets(letters: u8) -> usize
    requires { letters ≤ 2 * most_level_rank }
    ensures { result ≡ 2 ^ letters }
{
    1 << letters
}

/// Behind the numbers of edges between `x` and the sets of letters before `y`, writes those for the same sets with `y`:
/// each has the edges of the set without `y` and those between the two letters.
fn double_edges(edges: &mut [u32], net: &Net, x: Letter, y: Letter)
    requires net { IsNet net.now }
    requires letter { y < 2 * most_level_rank }
    requires room { 2 ^ (y + 1) ≤ length edges.old }
    requires edges { HasTable (edges_into net.now.cells x) (2 ^ y) edges.old }
    ensures edges { HasTable (edges_into net.now.cells x) (2 ^ (y + 1)) edges.new }
    ensures same_length { length edges.new ≡ length edges.old }
{
    let joining = net.cap_of(x, y);
    let count = count_sets(y.index());
    for set in 0..count {
        edges[count + set] = edges[set] + joining;
    }
}

/// Writes how many edges join a letter to each set of letters before it.
fn count_edges(edges: &mut [u32], net: &Net, x: Letter)
    requires net { IsNet net.now }
    requires letter { x < 2 * most_level_rank }
    requires room { 2 ^ x ≤ length edges.old }
    ensures edges { HasTable (edges_into net.now.cells x) (2 ^ x) edges.new }
    ensures same_length { length edges.new ≡ length edges.old }
{
    edges[0] = 0;
    for index in 0..x.index() {
        double_edges(edges, net, x, Letter::of_index(index));
    }
}

/// Behind the capacities of the sets of letters before `x`, writes those of the same sets with `x`: each is that of the
/// set without `x` and the degree of `x`, less twice the edges between the two, which both of these count and which lead
/// out of the set no more.
fn double_capacities(capacities: &mut [u32], net: &Net, x: Letter, edges: &[u32])
    requires net { IsNet net.now }
    requires letter { x < 2 * most_level_rank }
    requires room { 2 ^ (x + 1) ≤ length capacities.old }
    requires capacities { HasTable (set_capacity net.now.cells) (2 ^ x) capacities.old }
    requires edges { HasTable (edges_into net.now.cells x) (2 ^ x) edges.now }
    ensures capacities { HasTable (set_capacity net.now.cells) (2 ^ (x + 1)) capacities.new }
    ensures same_length { length capacities.new ≡ length capacities.old }
{
    let degree = deg(net, x);
    let count = count_sets(x.index());
    for set in 0..count {
        capacities[count + set] = capacities[set] + degree - 2 * edges[set];
    }
}

/// The capacities of all sets of letters of a network's rank, which is MOST_LEVEL_RANK at most: for each set, at the
/// place that its mask says, how many edges lead out of it (Lyndon and Schupp, I.4). They are found by adding one
/// letter after another, and none of them afresh. `OutOfMemory` comes where memory is short for the table, of 4 to the
/// rank numbers, or for the counts of edges, of half as many.
pub fn capacity_table(alloc: Global, net: &Net) -> Result<Vec<u32>, OutOfMemory>
    requires { net.now.rank ≤ most_level_rank }
    ensures { IfOk result (λ v. IsTable (set_capacity net.now.cells) (2 ^ (2 * net.now.rank)) v.items) }
{
    let letters = 2 * net.rank().get();
    let mut capacities = vec![in alloc; 0; count_sets(letters)]?;
    let mut edges = vec![in alloc; 0; count_sets(letters - 1)]?;
    for index in 0..letters {
        let letter = Letter::of_index(index);
        count_edges(&mut edges, net, letter);
        double_capacities(&mut capacities, net, letter, &edges);
    }
    Ok(capacities)
}
