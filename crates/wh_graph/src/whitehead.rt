//! The Whitehead graph.
ghost use Rattle.std.specs.Prelude.{◌≡◌, ℕ, ◌+◌, ◌<◌, ◌≤◌, length, count_by};
ghost use Rattle.wh_words.specs.Limits.{most_letters};
ghost use Rattle.wh_words.specs.Words.{IsOfRank};
ghost use Rattle.wh_words.specs.CyclicWords.{IsCyclicallyReduced};
ghost use Rattle.wh_words.specs.Edges.{joins, word_edges};
ghost use Rattle.wh_flow.specs.Tables.{cell};
ghost use Rattle.wh_flow.specs.Nets.{edge_count};
ghost use Rattle.wh_graph.specs.Graphs.{IsGraph};

use wh_flow::Net;
use wh_words::{Letter, Tuple};

/// Adds the edges of a cyclic word: for each letter one between the letter before it, which of the first is the last,
/// and its inverse.
fn add_word(net: &mut Net, word: &[Letter])
    requires reduced { IsCyclicallyReduced word.now }
    requires of_rank { IsOfRank net.old.rank word.now }
    requires few { edge_count net.old.cells + length word.now ≤ most_letters }
    ensures rank { net.new.rank ≡ net.old.rank }
    ensures edges { (x y : ℕ) → x < 52 → y < 52 → cell net.new.cells x y ≡ cell net.old.cells x y + count_by (joins x y) (word_edges word.now) }
    ensures count { edge_count net.new.cells ≡ edge_count net.old.cells + length word.now }
{
    if let Some(last) = word.last() {
        let mut before = *last;
        for x in word {
            net.add_edge(before, x.inverse());
            before = *x;
        }
    }
}

/// The Whitehead graph of a tuple, as a network of its rank. It takes no memory, and its time is linear in the letters
/// (Lyndon and Schupp, I.4).
pub fn graph(tuple: &Tuple) -> Net
    ensures { IsGraph result tuple.now.plain }
{
    let mut net = Net::empty(tuple.rank());
    for place in 0..tuple.count() {
        add_word(&mut net, tuple.word(place));
    }
    net
}
