//! The edges of a level: its level moves, each from a tuple to its image.
ghost use Rattle.std.specs.Prelude.{◌≡◌, ◌+◌, ◌<◌, ◌≤◌, [], length, slice_get, Some, MatchOption, IfOk, OnOk};
ghost use Rattle.std.specs.Bool.{MatchBool};
ghost use Rattle.std.specs.List.Sorted.{IsStrictlySortedBy};
ghost use Rattle.std.specs.Ordering.{nat_cmp, ordering_then};
ghost use Rattle.wh_words.specs.Moves.{move_cmp};
ghost use Rattle.wh_words.specs.Action.{act};
ghost use Rattle.wh_words.specs.Levels.{InLevel, IsLevelMove};
ghost use Rattle.wh_level.specs.PlacedTuples.{HasRoomsFor, KeepsRooms};
ghost use Rattle.wh_level.specs.LevelEdges.{AreEdges, AreFirstEdges, AreMovesAt, HasMoreEdges, IsEdgeNumber, LacksEdge, edge_cmp};

use crate::level::Level;
use crate::sealing::blank;
use std::alloc::Global;
use std::cmp::Ordering;
use wh_expand::own_level_moves;
use wh_moves::{Move, act_into};
use wh_words::{OutOfMemory, Tuple};

/// An edge of a level: a level move from one tuple to another, which are told by their places, counted from 0.
#[derive(Clone, Copy)]
pub struct Edge {
    pub from: usize,
    pub via: Move,
    pub to: usize,
}

/// The place of the image of a tuple of a level under a level move, which `image` becomes.
fn place_of_image(level: &Level, tuple: &Tuple, m: &Move, image: &mut Tuple) -> usize
    requires member { InLevel level.now.root tuple.now.plain }
    requires moves { IsLevelMove tuple.now.plain m.now }
    requires rooms { HasRoomsFor image.old tuple.now.plain }
    ensures place { slice_get level.now.tuples result ≡ Some (act tuple.now.plain m.now) }
    ensures rooms { KeepsRooms image.old image.new }
{
    act_into(tuple, m, image);
    level.place(image).unwrap()
}

/// The level moves of the tuple at a place, in order.
fn moves_at(alloc: Global, level: &Level, place: usize) -> Result<Vec<Move>, OutOfMemory>
    requires { place < length level.now.tuples }
    ensures { IfOk result (λ v. AreMovesAt level.now place v.items) }
{
    own_level_moves(alloc, &level.tuples()[place])
}

/// Adds the edges from the tuple at a place, which has these level moves, to those from the tuples before it.
fn push_edges(
    edges: &mut Vec<Edge>,
    level: &Level,
    from: usize,
    moves: &[Move],
    image: &mut Tuple,
) -> Result<(), OutOfMemory>
    requires within { from < length level.now.tuples }
    requires moves { AreMovesAt level.now from moves.now }
    requires rooms { HasRoomsFor image.old level.now.root }
    requires before { AreFirstEdges level.now from [] edges.old.items }
    ensures edges { OnOk result (AreFirstEdges level.now (from + 1) [] edges.new.items) }
    ensures count { OnOk result (length edges.new.items ≡ length edges.old.items + length moves.now) }
    ensures rooms { KeepsRooms image.old image.new }
{
    let tuple = &level.tuples()[from];
    for m in moves {
        let to = place_of_image(level, tuple, m, image);
        edges.push(Edge { from, via: *m, to })?;
    }
    Ok(())
}

/// Adds all edges of a level.
fn push_all(
    alloc: Global,
    edges: &mut Vec<Edge>,
    level: &Level,
    image: &mut Tuple,
) -> Result<(), OutOfMemory>
    requires none { edges.old.items ≡ [] }
    requires rooms { HasRoomsFor image.old level.now.root }
    ensures { OnOk result (AreEdges level.now edges.new.items) }
{
    for from in 0..level.tuples().len() {
        let moves = moves_at(alloc, level, from)?;
        push_edges(edges, level, from, &moves, image)?;
    }
    Ok(())
}

/// Adds all edges of a level, or stops and answers false where there are more than a limit. Those of one tuple are added
/// only where they stay within it.
fn push_few(
    alloc: Global,
    edges: &mut Vec<Edge>,
    level: &Level,
    limit: usize,
    image: &mut Tuple,
) -> Result<bool, OutOfMemory>
    requires none { edges.old.items ≡ [] }
    requires rooms { HasRoomsFor image.old level.now.root }
    ensures { IfOk result (λ few. MatchBool few (AreEdges level.now edges.new.items × (length edges.new.items ≤ limit)) (HasMoreEdges level.now limit)) }
{
    for from in 0..level.tuples().len() {
        let moves = moves_at(alloc, level, from)?;
        if moves.len() > limit - edges.len() {
            return Ok(false);
        }
        push_edges(edges, level, from, &moves, image)?;
    }
    Ok(true)
}

/// All edges of a level (Lyndon and Schupp, I.4): for each tuple in order its level moves in the order of moves, each with
/// the place of the image. It answers an error where memory runs out.
pub fn edges(alloc: Global, level: &Level) -> Result<Vec<Edge>, OutOfMemory>
    ensures { IfOk result (λ v. AreEdges level.now v.items) }
{
    let mut edges = Vec::new(alloc);
    let mut image = blank(alloc, level.root())?;
    push_all(alloc, &mut edges, level, &mut image)?;
    Ok(edges)
}

/// All edges of a level, as `edges` gives them, or None exactly where there are more than a limit. It stops at the tuple
/// whose edges would pass the limit, and its memory stays within it. It answers an error where memory runs out.
pub fn few_edges(
    alloc: Global,
    level: &Level,
    limit: usize,
) -> Result<Option<Vec<Edge>>, OutOfMemory>
    ensures { IfOk result (λ o. MatchOption o (HasMoreEdges level.now limit) (λ v. AreEdges level.now v.items × (length v.items ≤ limit))) }
{
    let mut edges = Vec::new(alloc);
    let mut image = blank(alloc, level.root())?;
    if push_few(alloc, &mut edges, level, limit, &mut image)? {
        Ok(Some(edges))
    } else {
        Ok(None)
    }
}

/// How an edge stands to one from a place by a move, in the order of edges.
fn edge_order(edge: &Edge, from: usize, via: &Move) -> Ordering
    ensures { result ≡ ordering_then (nat_cmp edge.now.from from) (move_cmp edge.now.via via.now) }
{
    edge.from.cmp(&from).then(edge.via.cmp(via))
}

/// The number of the edge from a place by a move among the edges of a level, counted from 0. None exactly where there is
/// none. It takes no memory, and its time is logarithmic in the number of edges.
pub fn edge_number(edges: &[Edge], from: usize, via: &Move) -> Option<usize>
    requires { IsStrictlySortedBy edge_cmp edges.now }
    ensures { MatchOption result (LacksEdge edges.now from via.now) (IsEdgeNumber edges.now from via.now) }
{
    edges
        .binary_search_by(
            |edge: &Edge| -> Ordering
                ensures { result ≡ ordering_then (nat_cmp edge.now.from from) (move_cmp edge.now.via via.entry.now) }
            { edge_order(edge, from, via) },
        )
        .ok()
}
