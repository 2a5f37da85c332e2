//! Reading of what presents a stabiliser.
ghost use Rattle.std.specs.Prelude.{◌≡◌, ◌≤◌, ◌-◌, length, map, Some, IfOk, codes};
ghost use Rattle.std.specs.List.{position};
ghost use Rattle.std.specs.Ordering.{is_eq};
ghost use Rattle.wh_words.specs.Tuples.{tuple_cmp};
ghost use Rattle.wh_lines.specs.Readings.{Gives, or_bad_line};
ghost use Rattle.wh_lines.specs.LineReadings.{Reads, times};
ghost use Rattle.wh_fields.specs.StabiliserFields.{tree_edge_in, generator_in, relator_in};
ghost use Rattle.wh_words.specs.Limits.{most_level_edges, most_relators};
ghost use Rattle.wh_data.specs.RootPlaces as places;
ghost use Rattle.wh_data.specs.AnswerData.{plains};
ghost use Rattle.wh_text.specs.Certificates as spec;

use crate::answer_line::{bad_line, read_number};
use std::alloc::Global;
use std::marker::Model;
use wh_data::{Loop, Parts};
use wh_fields::{RelatorLine, TreeEdge, read_generator, read_relator, read_tree_edge};
use wh_lines::{Kept, ReadError, Reader};
use wh_moves::Move;
use wh_words::{List, MOST_LEVEL_EDGES, MOST_RELATORS, OutOfMemory, Rank, Tuple};

/// What presents a stabiliser, and the numbers of the vertices that its `tree` lines name.
#[derive(Drop)]
pub struct ReadParts {
    pub parts: Parts,
    pub heads: Vec<u32>,
}

impl Model for ReadParts {
    ghost use Rattle.wh_data.specs.AnswerData.{parts_of};
    ghost use Rattle.wh_text.specs.Certificates as spec;

    ghost Value = { spec.PartsRead };

    ghost view = { λ p. record { parts = parts_of p.parts; heads = p.heads.items } };
}

/// What a `tree` line tells.
fn tree_edge_of(rank: Rank, kept: &Kept) -> Result<TreeEdge, ReadError>
    ensures { Gives (λ e. e) result (or_bad_line kept.now.number (tree_edge_in rank kept.now.fields)) }
{
    match read_tree_edge(rank, kept.fields()) {
        Some(edge) => Ok(edge),
        None => Err(bad_line(kept)),
    }
}

/// What the next line tells, which is a `tree` line.
#[tactic(auto, unfolding(crate::specs::Certificates::tree_edge_after))]
fn tree_edge_after(rank: Rank, reader: &mut Reader) -> Result<TreeEdge, ReadError>
    ensures { Reads (λ e. e) result reader.new (spec.tree_edge_after rank reader.old) }
{
    let kept = reader.line_after(b"tree")?;
    tree_edge_of(rank, &kept)
}

/// What the next lines tell, which are so many `tree` lines.
fn tree_edges_after(
    alloc: Global,
    rank: Rank,
    size: usize,
    reader: &mut Reader,
) -> Result<Vec<TreeEdge>, ReadError>
    ensures { Reads (λ v. v.items) result reader.new (times (spec.tree_edge_after rank) size reader.old) }
{
    let mut edges = Vec::new(alloc);
    for _ in 0..size {
        let edge = tree_edge_after(rank, reader)?;
        edges.push(edge)?;
    }
    Ok(edges)
}

/// What a `generator` line tells.
fn generator_of(rank: Rank, kept: &Kept) -> Result<(usize, Move), ReadError>
    ensures { Gives (λ g. g) result (or_bad_line kept.now.number (generator_in rank kept.now.fields)) }
{
    match read_generator(rank, kept.fields()) {
        Some(generator) => Ok(generator),
        None => Err(bad_line(kept)),
    }
}

/// What the next line tells, which is a `generator` line.
#[tactic(auto, unfolding(crate::specs::Certificates::generator_after))]
fn generator_after(rank: Rank, reader: &mut Reader) -> Result<(usize, Move), ReadError>
    ensures { Reads (λ g. g) result reader.new (spec.generator_after rank reader.old) }
{
    let kept = reader.line_after(b"generator")?;
    generator_of(rank, &kept)
}

/// The generators of the next lines, which are so many `generator` lines.
fn generators_in(
    alloc: Global,
    rank: Rank,
    size: usize,
    reader: &mut Reader,
) -> Result<Vec<(usize, Move)>, ReadError>
    ensures { Reads (λ v. v.items) result reader.new (times (spec.generator_after rank) size reader.old) }
{
    let mut generators = Vec::new(alloc);
    for _ in 0..size {
        let generator = generator_after(rank, reader)?;
        generators.push(generator)?;
    }
    Ok(generators)
}

/// The generators of the next lines: as many `generator` lines as a `generators` line tells.
fn generators_with(
    alloc: Global,
    rank: Rank,
    kept: &Kept,
    reader: &mut Reader,
) -> Result<Vec<(usize, Move)>, ReadError>
    ensures { Reads (λ v. v.items) result reader.new (spec.counted_with most_level_edges (spec.generator_after rank) kept.now reader.old) }
{
    let size = read_number(
        kept.number() as u64,
        0,
        MOST_LEVEL_EDGES as u64,
        kept.fields(),
    )?;
    generators_in(alloc, rank, size as usize, reader)
}

/// The generators that the next lines tell: `generators` with their number, at most 65,536, and a `generator` line for
/// each.
fn generators_after(
    alloc: Global,
    rank: Rank,
    reader: &mut Reader,
) -> Result<Vec<(usize, Move)>, ReadError>
    ensures { Reads (λ v. v.items) result reader.new (spec.counted_after (codes "generators") most_level_edges (spec.generator_after rank) reader.old) }
{
    let kept = reader.line_after(b"generators")?;
    generators_with(alloc, rank, &kept, reader)
}

/// What a `relator` line tells.
fn relator_of(alloc: Global, rank: Rank, kept: &Kept) -> Result<RelatorLine, ReadError>
    ensures { Gives (λ r. r) result (or_bad_line kept.now.number (relator_in rank kept.now.fields)) }
{
    match read_relator(alloc, rank, kept.fields())? {
        Some(relator) => Ok(relator),
        None => Err(bad_line(kept)),
    }
}

/// What the next line tells, which is a `relator` line.
#[tactic(auto, unfolding(crate::specs::Certificates::relator_after))]
fn relator_after(alloc: Global, rank: Rank, reader: &mut Reader) -> Result<RelatorLine, ReadError>
    ensures { Reads (λ r. r) result reader.new (spec.relator_after rank reader.old) }
{
    let kept = reader.line_after(b"relator")?;
    relator_of(alloc, rank, &kept)
}

/// What the next lines tell, which are so many `relator` lines.
fn relators_in(
    alloc: Global,
    rank: Rank,
    size: usize,
    reader: &mut Reader,
) -> Result<Vec<RelatorLine>, ReadError>
    ensures { Reads (λ v. v.items) result reader.new (times (spec.relator_after rank) size reader.old) }
{
    let mut relators = Vec::new(alloc);
    for _ in 0..size {
        let relator = relator_after(alloc, rank, reader)?;
        relators.push(relator)?;
    }
    Ok(relators)
}

/// What the next lines tell: as many `relator` lines as a `relators` line tells.
fn relators_with(
    alloc: Global,
    rank: Rank,
    kept: &Kept,
    reader: &mut Reader,
) -> Result<Vec<RelatorLine>, ReadError>
    ensures { Reads (λ v. v.items) result reader.new (spec.counted_with most_relators (spec.relator_after rank) kept.now reader.old) }
{
    let size = read_number(kept.number() as u64, 0, MOST_RELATORS as u64, kept.fields())?;
    relators_in(alloc, rank, size as usize, reader)
}

/// What the next lines tell of relators: `relators` with their number, at most 393,216, and a `relator` line for each.
fn relators_after(
    alloc: Global,
    rank: Rank,
    reader: &mut Reader,
) -> Result<Vec<RelatorLine>, ReadError>
    ensures { Reads (λ v. v.items) result reader.new (spec.counted_after (codes "relators") most_relators (spec.relator_after rank) reader.old) }
{
    let kept = reader.line_after(b"relators")?;
    relators_with(alloc, rank, &kept, reader)
}

/// What `tree` lines name, and the parents that they tell.
fn split_edges(
    alloc: Global,
    edges: Vec<TreeEdge>,
) -> Result<(Vec<u32>, Vec<Option<(usize, Move)>>), OutOfMemory>
    ensures heads { IfOk result (λ r. r.0.items ≡ map (λ e. e.head) edges.items) }
    ensures parents { IfOk result (λ r. r.1.items ≡ map (λ e. Some (e.parent, e.move)) edges.items) }
{
    let mut heads = Vec::new(alloc);
    let mut parents = Vec::new(alloc);
    for edge in edges {
        let (head, parent, via) = edge.into_parts();
        heads.push(head)?;
        parents.push(Some((parent, via)))?;
    }
    Ok((heads, parents))
}

/// The relators that lines tell.
fn loops_of(alloc: Global, lines: Vec<RelatorLine>) -> Result<Vec<Loop>, OutOfMemory>
    ensures { IfOk result (λ v. v.items ≡ map spec.loop_of lines.items) }
{
    let mut loops = Vec::new(alloc);
    for line in lines {
        let (at, moves, word) = line.into_parts();
        loops.push(Loop { at, moves, word })?;
    }
    Ok(loops)
}

/// Whether a vertex is the end.
#[tactic(auto, using(wh_words::proofs::SameTuples::same_is_tied))]
fn is_end(vertex: &Tuple, end: &Tuple) -> bool
    ensures { result ≡ is_eq (tuple_cmp vertex.now.plain end.now.plain) }
{
    vertex.same(end)
}

/// The place of the first vertex that is the end.
fn end_place(end: &Tuple, vertices: &[Tuple]) -> Option<usize>
    ensures { result ≡ position (λ t. is_eq (tuple_cmp t.plain end.now.plain)) vertices.now }
{
    vertices.iter().position(|vertex| is_end(vertex, end))
}

/// The place of the end among the vertices. Where it isn't there, the first place stands for it.
fn root_place(end: &Tuple, vertices: &[Tuple]) -> usize
    ensures { result ≡ places.root_place end.now.plain (plains vertices.now) }
{
    end_place(end, vertices).unwrap_or(0)
}

/// What `tree` lines name, and their tree, where the vertex at this place has no line.
fn tree_with(
    alloc: Global,
    root: usize,
    edges: Vec<TreeEdge>,
) -> Result<(Vec<u32>, Vec<Option<(usize, Move)>>), OutOfMemory>
    requires { root ≤ length edges.items }
    ensures heads { IfOk result (λ r. r.0.items ≡ map (λ e. e.head) edges.items) }
    ensures tree { IfOk result (λ r. r.1.items ≡ spec.tree_with root edges.items) }
{
    let (heads, mut tree) = split_edges(alloc, edges)?;
    tree.insert(root, None)?;
    Ok((heads, tree))
}

/// What presents the stabiliser of an end by these vertices, with an edge of the tree for each but one.
fn parts_with(
    alloc: Global,
    end: &Tuple,
    vertices: List<Tuple>,
    edges: Vec<TreeEdge>,
    generators: Vec<(usize, Move)>,
    relators: Vec<RelatorLine>,
) -> Result<ReadParts, OutOfMemory>
    requires { length edges.items ≡ length vertices - 1 }
    ensures { IfOk result (λ p. p ≡ spec.parts_with end.now.plain (plains vertices) edges.items generators.items relators.items) }
{
    let root = root_place(end, vertices.items());
    let (heads, tree) = tree_with(alloc, root, edges)?;
    let relators = loops_of(alloc, relators)?;
    Ok(ReadParts {
        parts: Parts {
            vertices,
            tree: List::of(tree),
            generators: List::of(generators),
            relators: List::of(relators),
        },
        heads,
    })
}

/// What the next lines tell, which present the stabiliser of an end by these vertices: a `tree` line for each but one, then
/// the generators and the relators.
#[tactic(auto, unfolding(crate::specs::Certificates::parts_after))]
pub fn parts_after(
    alloc: Global,
    rank: Rank,
    end: &Tuple,
    vertices: List<Tuple>,
    reader: &mut Reader,
) -> Result<ReadParts, ReadError>
    ensures { Reads (λ p. p) result reader.new (spec.parts_after rank end.now.plain (plains vertices) reader.old) }
{
    let size = vertices.items().len().saturating_sub(1);
    let edges = tree_edges_after(alloc, rank, size, reader)?;
    let generators = generators_after(alloc, rank, reader)?;
    let relators = relators_after(alloc, rank, reader)?;
    Ok(parts_with(alloc, end, vertices, edges, generators, relators)?)
}
