//! The lines of the tree of a level.
ghost use Rattle.std.specs.Prelude.{◌≡◌, ◌↔◌, ℕ, ◌+◌, ◌<◌, ◌≤◌, length, get_or, IsTrue, IfOk};
ghost use Rattle.std.specs.List.{All};
ghost use Rattle.wh_words.specs.Limits.{most_level_tuples};
ghost use Rattle.wh_words.specs.Action as spec;
ghost use Rattle.wh_data.specs.AnswerData.{plains, parts_of};
ghost use Rattle.wh_cert.specs.Listings.{IsRoomy};
ghost use Rattle.wh_data.specs.Numberings.{ArePartsOfRank, tree_lines};
ghost use Rattle.wh_data.specs.RootPlaces.{root_place};
ghost use Rattle.wh_cert.specs.Demands as demands;
ghost use Rattle.wh_cert.specs.Demands.{IsTreeEdge, tree_asked};
ghost use Rattle.wh_cert.specs.Judged.{Judges};
ghost use Rattle.wh_cert.specs.WaysBack.{step_back, AreSteps, AreTwice, TellWaysBack, IsLed, HaveOneRank, IsRootOf};

use crate::checked::Rule;
use crate::levels::roomy;
use crate::stop::{Stop, ask};
use std::alloc::Global;
use wh_data::Parts;
use wh_moves::{Move, act_into, acted_length};
use wh_words::{OutOfMemory, Tuple};

/// Where one step back along the parents leads from a place: to its parent, or past all places where it has none. Where
/// its parent isn't a place, to the place itself.
fn place_back(parents: &[Option<(usize, Move)>], place: usize) -> usize
    ensures { result ≡ step_back parents.now place }
{
    match parents.get(place) {
        None | Some(None) => parents.len(),
        Some(Some((from, _))) => { if *from < parents.len() { *from } else { place } }
    }
}

/// Where one step back leads from each place, and from past all places.
#[tactic(auto, using(crate::proofs::BackWays::no_steps, crate::proofs::BackWays::steps_pushed))]
fn first_steps(alloc: Global, parents: &[Option<(usize, Move)>]) -> Result<Vec<usize>, OutOfMemory>
    requires { length parents.now ≤ most_level_tuples }
    ensures { IfOk result (λ to. AreSteps parents.now 1 (length parents.now + 1) to.items) }
{
    let mut to = Vec::new(alloc);
    for place in 0..parents.len() + 1 {
        to.push(place_back(parents, place))?;
    }
    Ok(to)
}

/// Where a map of places leads that is followed twice.
#[tactic(auto, using(crate::proofs::BackWays::no_twice, crate::proofs::BackWays::twice_pushed))]
fn followed_twice(alloc: Global, to: &[usize]) -> Result<Vec<usize>, OutOfMemory>
    requires { (v : ℕ) → v < length to.now → get_or to.now v 0 < length to.now }
    ensures { IfOk result (λ twice. AreTwice to.now (length to.now) twice.items) }
{
    let mut twice = Vec::new(alloc);
    for place in 0..to.len() {
        twice.push(to[to[place]])?;
    }
    Ok(twice)
}

/// For each place where so many steps back lead that all ways back are at their ends: past all places exactly where there
/// is a way back. The steps are doubled, so that the time is linear but for a logarithm.
pub(crate) fn ways_back(
    alloc: Global,
    parents: &[Option<(usize, Move)>],
) -> Result<Vec<usize>, OutOfMemory>
    requires { length parents.now ≤ most_level_tuples }
    ensures { IfOk result (λ to. TellWaysBack parents.now to.items) }
{
    let mut to = first_steps(alloc, parents)?;
    let mut steps = 1;
    while steps < parents.len() {
        to = followed_twice(alloc, &to)?;
        steps *= 2;
    }
    Ok(to)
}

/// Whether a tuple is the image of another under a move of its rank. `image` is written over.
fn is_image(tuple: &Tuple, m: &Move, other: &Tuple, image: &mut Tuple) -> bool
    requires rank { tuple.now.plain.rank ≡ m.now.rank }
    requires roomy { IsRoomy image.old }
    ensures is { IsTrue result ↔ (spec.act tuple.now.plain m.now ≡ other.now.plain) }
    ensures roomy { IsRoomy image.new }
{
    // The proof takes from this call how many words there are.
    tuple.count();
    if acted_length(tuple, m) != other.length() {
        return false;
    }
    act_into(tuple, m, image);
    image.same(other)
}

/// Whether a move that isn't an identity cut leads to a tuple from the one at a place. `image` is written over.
fn is_led(tuples: &[Tuple], from: usize, via: &Move, to: &Tuple, image: &mut Tuple) -> bool
    requires ranks { All (λ t. t.plain.rank ≡ via.now.rank) tuples.now }
    requires roomy { IsRoomy image.old }
    ensures led { IsTrue result ↔ IsLed (plains tuples.now) from via.now to.now.plain }
    ensures roomy { IsRoomy image.new }
{
    if from >= tuples.len() {
        return false;
    }
    // The proof takes from this call that the move is one.
    via.rank();
    if via.is_identity() {
        return false;
    }
    is_image(&tuples[from], via, to, image)
}

/// Whether the line that names a vertex by a number tells an edge of the tree that leads to the vertex at a place. `back`
/// tells from which places parents lead back. `image` is written over.
fn is_tree_edge(parts: &Parts, head: u32, place: usize, back: &[usize], image: &mut Tuple) -> bool
    requires ranks { HaveOneRank (parts_of parts.now) }
    requires count { length parts.now.tree ≡ length parts.now.vertices }
    requires within { place < length parts.now.tree }
    requires back { TellWaysBack parts.now.tree back.now }
    requires roomy { IsRoomy image.old }
    ensures is { IsTrue result ↔ IsTreeEdge (parts_of parts.now) head place }
    ensures roomy { IsRoomy image.new }
{
    let tree = parts.tree.items();
    let Some((from, via)) = &tree[place] else {
        return false;
    };
    if head as usize != place + 1 || back[place] != tree.len() {
        return false;
    }
    let vertices = parts.vertices.items();
    is_led(vertices, *from, via, &vertices[place], image)
}

/// The vertex of a `tree` line, by the place of the line among them: the vertices but the root, in order.
fn tree_vertex(root: usize, line: usize) -> usize
    requires { line < most_level_tuples }
    ensures { result ≡ demands.tree_vertex root line }
{
    if line < root { line } else { line + 1 }
}

/// The one place without a parent.
fn root_of(parents: &[Option<(usize, Move)>]) -> usize
    ensures { (root : ℕ) → IsRootOf parents.now root → result ≡ root }
{
    for place in 0..parents.len() {
        if parents[place].is_none() {
            return place;
        }
    }
    0
}

/// Judges the `tree` lines, of which the first is at a place. `back` tells from which places parents lead back. `image` is
/// written over.
fn judge_each_edge(
    place: usize,
    heads: &[u32],
    root: usize,
    parts: &Parts,
    back: &[usize],
    image: &mut Tuple,
) -> Result<(), Stop>
    requires ranks { HaveOneRank (parts_of parts.now) }
    requires count { length parts.now.tree ≡ length parts.now.vertices }
    requires few { length parts.now.tree ≤ most_level_tuples }
    requires lines { tree_lines (parts_of parts.now) + 1 ≡ length parts.now.tree }
    requires heads { length heads.now ≡ tree_lines (parts_of parts.now) }
    requires back { TellWaysBack parts.now.tree back.now }
    requires low { place ≤ 200000 }
    requires roomy { IsRoomy image.old }
    ensures { Judges (tree_asked place heads.now root (parts_of parts.now)) result }
{
    for line in 0..heads.len() {
        let vertex = tree_vertex(root, line);
        let met = is_tree_edge(parts, heads[line], vertex, back, image);
        ask(place + line, Rule::Tree, met)?;
    }
    Ok(())
}

/// Judges the `tree` lines, of which the first is at a place. `back` tells from which places parents lead back.
fn judge_edges(
    alloc: Global,
    place: usize,
    heads: &[u32],
    end: &Tuple,
    parts: &Parts,
    back: &[usize],
) -> Result<(), Stop>
    requires parts { ArePartsOfRank end.now.plain.rank end.now.plain (parts_of parts.now) }
    requires heads { length heads.now ≡ tree_lines (parts_of parts.now) }
    requires back { TellWaysBack parts.now.tree back.now }
    requires low { place ≤ 200000 }
    ensures { Judges (tree_asked place heads.now (root_place end.now.plain (parts_of parts.now).vertices) (parts_of parts.now)) result }
{
    let mut image = roomy(alloc, end)?;
    let root = root_of(parts.tree.items());
    judge_each_edge(place, heads, root, parts, back, &mut image)
}

/// Judges the `tree` lines of what presents the stabiliser of an end, of which the first is at a place, and which name
/// vertices by these numbers.
pub(crate) fn judge_tree(
    alloc: Global,
    place: usize,
    heads: &[u32],
    end: &Tuple,
    parts: &Parts,
) -> Result<(), Stop>
    requires parts { ArePartsOfRank end.now.plain.rank end.now.plain (parts_of parts.now) }
    requires heads { length heads.now ≡ tree_lines (parts_of parts.now) }
    requires low { place ≤ 200000 }
    ensures { Judges (tree_asked place heads.now (root_place end.now.plain (parts_of parts.now).vertices) (parts_of parts.now)) result }
{
    let back = ways_back(alloc, parts.tree.items())?;
    judge_edges(alloc, place, heads, end, parts, &back)
}
