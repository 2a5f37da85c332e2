//! Reading of what lines tell of a stabiliser: edges of a tree, generators and relators.
ghost use Rattle.std.specs.Prelude.{◌≡◌, ◌<◌, length, IfOk, IfSome};
ghost use Rattle.std.specs.Option.{option_map};
ghost use Rattle.wh_fields.specs.StabiliserFields as spec;
ghost use Rattle.wh_fields.specs.StabiliserFields.{word_in, moves_before, tree_edge_in, generator_in, relator_in};

use crate::move_reading::move_of;
use std::alloc::Global;
use std::marker::Model;
use wh_lines::{Field, canonical_number};
use wh_moves::Move;
use wh_words::{List, OutOfMemory, Rank};

/// What a `tree` line tells: the number of a vertex as it stands there, its parent, counted from 0, and the move that leads
/// from the parent.
#[derive(Drop)]
pub struct TreeEdge {
    head: u32,
    parent: usize,
    via: Move,
}

impl Model for TreeEdge {
    ghost use Rattle.wh_fields.specs.StabiliserFields as spec;

    ghost Value = { spec.TreeEdgeData };

    ghost view = { λ e. record { head = e.head; parent = e.parent; move = e.via } };
}

impl TreeEdge {
    /// The number of the vertex, its parent, and the move.
    pub fn into_parts(self) -> (u32, usize, Move)
        ensures head { result.0 ≡ self.head }
        ensures parent { result.1 ≡ self.parent }
        ensures via { result.2 ≡ self.move }
    {
        let TreeEdge { head, parent, via } = self;
        (head, parent, via)
    }
}

/// A number, where there is one from 1 to 4,294,967,295.
fn counting(number: Option<u64>) -> Option<u32>
    ensures { result ≡ spec.counting number }
{
    match number {
        Some(k) if k > 0 && k <= 4294967295 => Some(k as u32),
        _ => None,
    }
}

/// The number of a vertex or of a generator that a field tells, from 1 to 4,294,967,295.
fn number_of(field: &Field) -> Option<u32>
    ensures { result ≡ spec.number_in field.now.bytes }
{
    counting(canonical_number(field.bytes()))
}

/// What the fields of a `tree` line tell in a rank: the number of a vertex, that of its parent, and a move. None where they
/// don't.
#[tactic(auto, unfolding(crate::specs::StabiliserFields::tree_edge_in))]
pub fn read_tree_edge(rank: Rank, fields: &[Field]) -> Option<TreeEdge>
    ensures { result ≡ tree_edge_in rank fields.now }
{
    let [vertex, parent, via] = fields else {
        return None;
    };
    let head = number_of(vertex)?;
    let parent = number_of(parent)?;
    let via = move_of(rank, via.bytes())?;
    Some(TreeEdge {
        head,
        parent: parent as usize - 1,
        via,
    })
}

/// What the fields of a `generator` line tell in a rank: a vertex, counted from 0, and a move. None where they don't.
#[tactic(auto, unfolding(crate::specs::StabiliserFields::generator_in))]
pub fn read_generator(rank: Rank, fields: &[Field]) -> Option<(usize, Move)>
    ensures { result ≡ generator_in rank fields.now }
{
    let [vertex, via] = fields else {
        return None;
    };
    let vertex = number_of(vertex)?;
    let via = move_of(rank, via.bytes())?;
    Some((vertex as usize - 1, via))
}

/// What a `relator` line tells: a vertex, counted from 0, the moves of a way round from it, and the numbers of the
/// generators on this way.
#[derive(Drop)]
pub struct RelatorLine {
    at: usize,
    moves: List<Move>,
    word: List<u32>,
}

impl Model for RelatorLine {
    ghost use Rattle.wh_fields.specs.StabiliserFields as spec;

    ghost Value = { spec.RelatorLineData };

    ghost view = { λ r. record { at = r.at; moves = r.moves; word = r.word } };
}

impl RelatorLine {
    /// The vertex, the moves and the numbers.
    pub fn into_parts(self) -> (usize, List<Move>, List<u32>)
        ensures at { result.0 ≡ self.at }
        ensures moves { result.1 ≡ self.moves }
        ensures word { result.2 ≡ self.word }
    {
        let RelatorLine { at, moves, word } = self;
        (at, moves, word)
    }
}

/// The numbers that fields tell. None where one tells none.
fn read_word(alloc: Global, fields: &[Field]) -> Result<Option<Vec<u32>>, OutOfMemory>
    ensures { IfOk result (λ o. option_map (λ v. v.items) o ≡ word_in fields.now) }
{
    let mut word = Vec::new(alloc);
    for field in fields {
        match number_of(field) {
            Some(k) => word.push(k)?,
            None => return Ok(None),
        }
    }
    Ok(Some(word))
}

/// The moves of the fields before the first `=`. None where there is none, or a field before it tells no move of the rank.
fn read_moves_before(
    alloc: Global,
    rank: Rank,
    fields: &[Field],
) -> Result<Option<Vec<Move>>, OutOfMemory>
    ensures moves { IfOk result (λ o. option_map (λ v. v.items) o ≡ moves_before rank fields.now) }
    ensures fewer { IfOk result (λ o. IfSome o (λ v. length v.items < length fields.now)) }
{
    let mut moves = Vec::new(alloc);
    for field in fields {
        if field.is(b"=") {
            return Ok(Some(moves));
        }
        match move_of(rank, field.bytes()) {
            Some(m) => moves.push(m)?,
            None => return Ok(None),
        }
    }
    Ok(None)
}

/// The relator of a vertex and moves, where there is one at least, with the numbers of the fields behind these and `=`.
fn with_word(
    alloc: Global,
    at: usize,
    moves: Vec<Move>,
    fields: &[Field],
) -> Result<Option<RelatorLine>, OutOfMemory>
    requires { length moves.items < length fields.now }
    ensures { IfOk result (λ o. o ≡ spec.with_word at moves.items fields.now) }
{
    if moves.is_empty() {
        return Ok(None);
    }
    match read_word(alloc, &fields[moves.len() + 1..])? {
        Some(word) => Ok(Some(RelatorLine {
            at,
            moves: List::of(moves),
            word: List::of(word),
        })),
        None => Ok(None),
    }
}

/// What the fields of a `relator` line tell in a rank: a vertex, one move or more, and behind `=` the numbers of generators.
/// None where they don't. OutOfMemory comes where there is no memory for the moves and the numbers.
#[tactic(auto, unfolding(crate::specs::StabiliserFields::relator_in))]
pub fn read_relator(
    alloc: Global,
    rank: Rank,
    fields: &[Field],
) -> Result<Option<RelatorLine>, OutOfMemory>
    ensures { IfOk result (λ o. o ≡ relator_in rank fields.now) }
{
    let [vertex, way @ ..] = fields else {
        return Ok(None);
    };
    let Some(number) = number_of(vertex) else {
        return Ok(None);
    };
    match read_moves_before(alloc, rank, way)? {
        Some(moves) => with_word(alloc, number as usize - 1, moves, way),
        None => Ok(None),
    }
}
