//! The `generators` line and the `generator` lines.
ghost use Rattle.std.specs.Prelude.{◌≡◌, ◌↔◌, ◌+◌, ◌<◌, ◌≤◌, [], length, slice_get, Some, IsTrue, IfOk, OnOk, MatchOption};
ghost use Rattle.std.specs.Bool.{MatchBool};
ghost use Rattle.std.specs.List.{All};
ghost use Rattle.wh_words.specs.Limits.{most_level_rank};
ghost use Rattle.wh_words.specs.Levels.{IsLevel};
ghost use Rattle.wh_expand.specs.Rows.{AreLevelMoves};
ghost use Rattle.wh_stab.specs.Presentations.{IsOfTree, AreGenerators};
ghost use Rattle.wh_data.specs.AnswerData.{plains, parts_of};
ghost use Rattle.wh_data.specs.Numberings.{ArePartsOfRank};
ghost use Rattle.wh_cert.specs.Demands.{tuple_at, presented_by, asked_below, generator_asked, generators_asked};
ghost use Rattle.wh_cert.specs.Judged.{Judges};
ghost use Rattle.wh_cert.specs.Listings.{IsRoomy};
ghost use Rattle.wh_cert.specs.OffTree.{AreFirstOffTree, HasMoreOffTree};
ghost use Rattle.wh_cert.specs.VertexWays.{AreVertices};

use crate::checked::Rule;
use crate::levels::roomy;
use crate::stop::{Stop, ask};
use crate::ways::image_place;
use std::alloc::Global;
use wh_data::Parts;
use wh_expand::own_level_moves;
use wh_moves::Move;
use wh_words::{OutOfMemory, Rank, Tuple};

/// Whether the edge by a move from the vertex at one place to that at another is one of a tree.
pub(crate) fn is_of_tree(tree: &[Option<(usize, Move)>], from: usize, via: &Move, to: usize) -> bool
    requires { to < length tree.now }
    ensures { IsTrue result ↔ (slice_get tree.now to ≡ Some (Some (from, via.now))) }
{
    match &tree[to] {
        Some((parent, m)) => *parent == from && m == via,
        None => false,
    }
}

/// Whether a move leads from the vertex at a place along an edge of the tree. `image` is written over.
fn leads_along_the_tree(parts: &Parts, from: usize, via: &Move, image: &mut Tuple) -> bool
    requires vertices { AreVertices via.now.rank (plains parts.now.vertices) }
    requires count { length parts.now.tree ≡ length parts.now.vertices }
    requires within { from < length parts.now.vertices }
    requires roomy { IsRoomy image.old }
    ensures is { MatchBool result (IsOfTree (presented_by (parts_of parts.now) []) (tuple_at (plains parts.now.vertices) from) via.now) (¬ (IsOfTree (presented_by (parts_of parts.now) []) (tuple_at (plains parts.now.vertices) from) via.now)) }
    ensures roomy { IsRoomy image.new }
{
    let vertices = parts.vertices.items();
    match image_place(vertices, &vertices[from], via, image) {
        Some(to) => is_of_tree(parts.tree.items(), from, via, to),
        None => false,
    }
}

/// Adds the edges off the tree from the vertex at a place, which has these level moves, to those from the vertices before
/// it. `image` is written over.
fn push_off_tree(
    edges: &mut Vec<(usize, Move)>,
    parts: &Parts,
    from: usize,
    moves: &[Move],
    image: &mut Tuple,
) -> Result<(), OutOfMemory>
    requires vertices { All (λ m. AreVertices m.rank (plains parts.now.vertices)) moves.now }
    requires count { length parts.now.tree ≡ length parts.now.vertices }
    requires within { from < length parts.now.vertices }
    requires moves { AreLevelMoves (tuple_at (plains parts.now.vertices) from) moves.now }
    requires before { AreFirstOffTree (parts_of parts.now) from [] edges.old.items }
    requires roomy { IsRoomy image.old }
    ensures edges { OnOk result (AreFirstOffTree (parts_of parts.now) (from + 1) [] edges.new.items) }
    ensures roomy { IsRoomy image.new }
{
    for m in moves {
        if !leads_along_the_tree(parts, from, m, image) {
            edges.push((from, *m))?;
        }
    }
    Ok(())
}

/// Adds the edges off the tree, in order. It stops and answers false where there are more than so many, once it has passed
/// them. `image` is written over.
fn push_few(
    alloc: Global,
    edges: &mut Vec<(usize, Move)>,
    rank: Rank,
    parts: &Parts,
    most: usize,
    image: &mut Tuple,
) -> Result<bool, OutOfMemory>
    requires none { edges.old.items ≡ [] }
    requires low { rank ≤ most_level_rank }
    requires vertices { AreVertices rank (plains parts.now.vertices) }
    requires count { length parts.now.tree ≡ length parts.now.vertices }
    requires roomy { IsRoomy image.old }
    ensures { IfOk result (λ few. MatchBool few (AreGenerators (presented_by (parts_of parts.now) edges.new.items)) (HasMoreOffTree (parts_of parts.now) most)) }
{
    let vertices = parts.vertices.items();
    for from in 0..vertices.len() {
        let moves = own_level_moves(alloc, &vertices[from])?;
        push_off_tree(edges, parts, from, &moves, image)?;
        if edges.len() > most {
            return Ok(false);
        }
    }
    Ok(true)
}

/// The edges off the tree, in order. None exactly where there are more than so many.
fn off_tree(
    alloc: Global,
    rank: Rank,
    parts: &Parts,
    most: usize,
    image: &mut Tuple,
) -> Result<Option<Vec<(usize, Move)>>, OutOfMemory>
    requires low { rank ≤ most_level_rank }
    requires vertices { AreVertices rank (plains parts.now.vertices) }
    requires count { length parts.now.tree ≡ length parts.now.vertices }
    requires roomy { IsRoomy image.old }
    ensures { IfOk result (λ o. MatchOption o (HasMoreOffTree (parts_of parts.now) most) (λ edges. AreGenerators (presented_by (parts_of parts.now) edges.items))) }
{
    let mut edges = Vec::new(alloc);
    if push_few(alloc, &mut edges, rank, parts, most, image)? {
        Ok(Some(edges))
    } else {
        Ok(None)
    }
}

/// Whether two edges have one start.
pub(crate) fn is_same(start: &(usize, Move), other: &(usize, Move)) -> bool
    ensures { IsTrue result ↔ (start.now ≡ other.now) }
{
    start.0 == other.0 && start.1 == other.1
}

/// Judges the `generator` lines, of which the first is at a place, where these are the edges off the tree, as many as there
/// are generators.
fn judge_each(place: usize, parts: &Parts, edges: &[(usize, Move)]) -> Result<(), Stop>
    requires are { AreGenerators (presented_by (parts_of parts.now) edges.now) }
    requires count { length parts.now.generators ≡ length edges.now }
    requires low { place ≤ 300001 }
    ensures { Judges (asked_below (generator_asked place (parts_of parts.now)) (length parts.now.generators)) result }
{
    let generators = parts.generators.items();
    for k in 0..generators.len() {
        ask(
            place + k,
            Rule::Generator,
            is_same(&generators[k], &edges[k]),
        )?;
    }
    Ok(())
}

/// Judges the `generators` line, which is at a place, and the `generator` lines, where these are the edges off the tree.
fn judge_known(place: usize, parts: &Parts, edges: &[(usize, Move)]) -> Result<(), Stop>
    requires are { AreGenerators (presented_by (parts_of parts.now) edges.now) }
    requires low { place ≤ 300000 }
    ensures { Judges (generators_asked place (parts_of parts.now)) result }
{
    let most = parts.generators.items().len();
    ask(place, Rule::Generators, edges.len() == most)?;
    judge_each(place + 1, parts, edges)
}

/// The edges off the tree of the level of an end, in order. None exactly where there are more than generators.
fn edges_off_tree(
    alloc: Global,
    end: &Tuple,
    parts: &Parts,
) -> Result<Option<Vec<(usize, Move)>>, OutOfMemory>
    requires parts { ArePartsOfRank end.now.plain.rank end.now.plain (parts_of parts.now) }
    requires level { IsLevel end.now.plain (parts_of parts.now).vertices }
    ensures { IfOk result (λ o. MatchOption o (HasMoreOffTree (parts_of parts.now) (length parts.now.generators)) (λ edges. AreGenerators (presented_by (parts_of parts.now) edges.items))) }
{
    let mut image = roomy(alloc, end)?;
    let most = parts.generators.items().len();
    off_tree(alloc, end.rank(), parts, most, &mut image)
}

/// Judges the `generators` line, which is at a place, and the `generator` lines of what presents the stabiliser of an end.
/// The edges off the tree are told anew; where they are more than the generators, the rest of them isn't made.
pub(crate) fn judge_generators(
    alloc: Global,
    place: usize,
    end: &Tuple,
    parts: &Parts,
) -> Result<(), Stop>
    requires parts { ArePartsOfRank end.now.plain.rank end.now.plain (parts_of parts.now) }
    requires level { IsLevel end.now.plain (parts_of parts.now).vertices }
    requires low { place ≤ 300000 }
    ensures { Judges (generators_asked place (parts_of parts.now)) result }
{
    match edges_off_tree(alloc, end, parts)? {
        Some(edges) => judge_known(place, parts, &edges),
        None => Err(Stop::Broken {
            place,
            rule: Rule::Generators,
        }),
    }
}
