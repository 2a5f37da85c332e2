//! Levels: the level moves of a tuple, the rows of a level, its tree and its first walks.
ghost use Rattle.std.specs.Prelude.{◌≡◌, ℕ, ◌<◌, ◌≤◌, length, IfOk, IfSome};
ghost use Rattle.wh_words.specs.Limits.{most_level_rank};
ghost use Rattle.wh_words.specs.Tuples.{TupleData};
ghost use Rattle.std.specs.List.Sorted.{IsStrictlySortedBy};
ghost use Rattle.wh_expand.specs.Rows.{IsRow, row_tuple};
ghost use Rattle.wh_level.specs.LevelEdges.{edge_cmp};
ghost use Rattle.wh_workers.specs.Explorations.{Explores};

use crate::support::{has_words, have_words, rank, tuple};
use std::alloc::Global;
use std::marker::Brand;
use std::sync::ledger::{Blank, Ledger};
use std::test::Fail;
use wh_expand::{Row, level_moves};
use wh_level::{Edge, Level, Sealed, Tree, edge_number, edges, few_edges, seal, tree};
use wh_moves::{Kind, Move};
use wh_walk::walk;
use wh_words::{MOST_LEVEL_RANK, OutOfMemory, Steps, Tuple};
use wh_workers::{Explored, explore_one};

/// The row of a tuple, by a counter over a blank.
fn row_over<L: Ledger>(alloc: Global, tuple: &Tuple, blank: Blank) -> Result<Row, OutOfMemory>
    requires rank { tuple.now.plain.rank ≤ most_level_rank }
    requires name { blank.name ≡ L.name }
    requires parts { blank.parts ≡ L.parts }
    requires some { 0 < blank.parts }
    ensures row { IfOk result IsRow }
    ensures own { IfOk result (λ r. row_tuple r ≡ tuple.now.plain) }
{
    let mut steps: Steps<L> = Steps::new(blank);
    level_moves(alloc, tuple, &mut steps)
}

/// The row of a tuple.
fn row(alloc: Global, tuple: &Tuple) -> Result<Row, OutOfMemory>
    requires { tuple.now.plain.rank ≤ most_level_rank }
    ensures row { IfOk result IsRow }
    ensures own { IfOk result (λ r. row_tuple r ≡ tuple.now.plain) }
{
    row_over::<Brand>(alloc, tuple, Blank::new(1))
}

/// What exploring the level of a root answers, by a counter over a blank.
fn explored_over<L: Ledger>(
    alloc: Global,
    root: &Tuple,
    limit: u32,
    blank: Blank,
) -> Result<Explored, OutOfMemory>
    requires rank { root.now.plain.rank ≤ most_level_rank }
    requires name { blank.name ≡ L.name }
    requires parts { blank.parts ≡ L.parts }
    requires some { 0 < blank.parts }
    ensures { IfOk result (Explores root.now.plain limit) }
{
    let mut steps: Steps<L> = Steps::new(blank);
    explore_one(alloc, root, limit, &mut steps)
}

/// What exploring the level of a root answers.
fn explored(alloc: Global, root: &Tuple, limit: u32) -> Result<Explored, OutOfMemory>
    requires { root.now.plain.rank ≤ most_level_rank }
    ensures { IfOk result (Explores root.now.plain limit) }
{
    explored_over::<Brand>(alloc, root, limit, Blank::new(1))
}

/// A tuple, where its rank is MOST_LEVEL_RANK at most.
fn low(tuple: Tuple) -> Option<Tuple>
    ensures { IfSome result (λ t. t.plain.rank ≤ most_level_rank) }
{
    if tuple.rank().get() <= MOST_LEVEL_RANK {
        Some(tuple)
    } else {
        None
    }
}

/// The tuple of a problem text of rank MOST_LEVEL_RANK at most.
fn low_tuple(alloc: Global, text: &str) -> Result<Tuple, Fail>
    ensures { IfOk result (λ t. t.plain.rank ≤ most_level_rank) }
{
    Ok(low(tuple(alloc, text)?).ok_or("rank")?)
}

/// Whether a move is the cut with a multiplier, told by its index, and a set, told by its bits.
fn is_cut(m: &Move, cut: (u8, u64)) -> bool {
    match m.kind() {
        Kind::Cut { mult, set } => (mult.index(), set.bits()) == cut,
        Kind::Swap(_) | Kind::Invert(_) => false,
    }
}

/// Whether all moves from a place on are these cuts.
fn end_with_cuts(moves: &[Move], from: usize, cuts: &[(u8, u64)]) -> bool
    requires { from ≤ length moves.now }
{
    if moves.len() - from != cuts.len() {
        return false;
    }
    for k in 0..cuts.len() {
        if !is_cut(&moves[from + k], cuts[k]) {
            return false;
        }
    }
    true
}

/// Whether moves are the swap and the inversions of rank 2, and then these cuts.
fn are_moves(moves: &[Move], cuts: &[(u8, u64)]) -> bool {
    if moves.len() < 3 {
        return false;
    }
    moves.first().copied() == Move::swap(rank(2), 1)
        && moves.get(1).copied() == Move::invert(rank(2), 1)
        && moves.get(2).copied() == Move::invert(rank(2), 2)
        && end_with_cuts(moves, 3, cuts)
}

/// How many level moves a tuple has, and whether they are the swap and the inversions of rank 2, and then these cuts.
fn moves_seen(alloc: Global, tuple: &Tuple, cuts: &[(u8, u64)]) -> Result<(usize, bool), Fail>
    requires { tuple.now.plain.rank ≤ most_level_rank }
{
    let row = row(alloc, tuple)?;
    Ok((row.moves.items().len(), are_moves(row.moves.items(), cuts)))
}

/// The same for the commutator of two generators.
fn commutator_moves(alloc: Global, cuts: &[(u8, u64)]) -> Result<(usize, bool), Fail> {
    let root = low_tuple(alloc, "rank 2\ntuple abAB\n")?;
    moves_seen(alloc, &root, cuts)
}

#[test]
fn a_commutator_has_fifteen_level_moves(rt: HostRuntime) -> Result<(), Fail> {
    // The letters a, A, b and B have the indices 0 to 3, so that the first cut is a:ab.
    let cuts = [
        (0, 5),
        (0, 9),
        (0, 13),
        (1, 6),
        (1, 10),
        (1, 14),
        (2, 5),
        (2, 6),
        (2, 7),
        (3, 9),
        (3, 10),
        (3, 11),
    ];
    assert_eq!(rt; commutator_moves(rt.alloc(), &cuts)?, (15, true));
    Ok(())
}

/// What sealing the row of a root answers.
#[tactic(auto, using(crate::proofs::RootRows::root_row_within, crate::proofs::RootRows::root_row_is))]
fn sealed(alloc: Global, root: &Tuple) -> Result<Sealed, OutOfMemory>
    requires { root.now.plain.rank ≤ most_level_rank }
{
    let rows = [row(alloc, root)?];
    seal(alloc, root, &rows)
}

/// Whether a sealed level has this root and the words of these texts. None where it isn't whole.
fn level_seen(sealed: &Sealed, root: &Tuple, texts: &[&str]) -> Option<(bool, bool)> {
    match sealed {
        Sealed::Closed(level) => Some((level.root().same(root), have_words(level.tuples(), texts))),
        Sealed::Missing(_) => None,
    }
}

/// Whether the row of a root is a whole level, with this root and the words of these texts.
fn whole_seen(alloc: Global, root: &Tuple, texts: &[&str]) -> Result<Option<(bool, bool)>, Fail>
    requires { root.now.plain.rank ≤ most_level_rank }
{
    let sealed = sealed(alloc, root)?;
    Ok(level_seen(&sealed, root, texts))
}

/// The same for the root of one empty word.
fn empty_word_seen(alloc: Global) -> Result<Option<(bool, bool)>, Fail> {
    let root = low_tuple(alloc, "rank 2\ntuple 1\n")?;
    whole_seen(alloc, &root, &[""])
}

#[test]
fn the_row_of_an_empty_word_is_a_whole_level(rt: HostRuntime) -> Result<(), Fail> {
    assert_eq!(rt; empty_word_seen(rt.alloc())?, Some((true, true)));
    Ok(())
}

/// Whether texts spell the words of the tuples that a sealed level misses. None where it is whole.
fn missing_seen(sealed: &Sealed, texts: &[&str]) -> Option<bool> {
    match sealed {
        Sealed::Closed(_) => None,
        Sealed::Missing(missing) => Some(have_words(missing.items(), texts)),
    }
}

/// Whether texts spell the words of the tuples that the row of a root misses. None where it misses nothing.
fn missed(alloc: Global, root: &Tuple, texts: &[&str]) -> Result<Option<bool>, Fail>
    requires { root.now.plain.rank ≤ most_level_rank }
{
    let sealed = sealed(alloc, root)?;
    Ok(missing_seen(&sealed, texts))
}

/// The same for the root of a commutator.
fn commutator_missed(alloc: Global, texts: &[&str]) -> Result<Option<bool>, Fail> {
    let root = low_tuple(alloc, "rank 2\ntuple abAB\n")?;
    missed(alloc, &root, texts)
}

#[test]
fn the_row_of_a_root_misses_its_images(rt: HostRuntime) -> Result<(), Fail> {
    assert_eq!(rt; commutator_missed(rt.alloc(), &["aBAb"])?, Some(true));
    Ok(())
}

/// The level that was explored, if its tuples are at most as many as the limit.
fn found(explored: Explored) -> Option<Level>
    ensures { (root : TupleData) (limit : ℕ) → Explores root limit explored → IfSome result (λ l. l.root ≡ root) }
{
    match explored {
        Explored::Closed(level) => Some(level),
        Explored::Passed => None,
    }
}

/// The level of a root, if it has at most so many tuples.
pub(crate) fn level_within(
    alloc: Global,
    root: &Tuple,
    limit: u32,
) -> Result<Option<Level>, OutOfMemory>
    requires { root.now.plain.rank ≤ most_level_rank }
    ensures { IfOk result (λ o. IfSome o (λ l. l.root ≡ root.now.plain)) }
{
    Ok(found(explored(alloc, root, limit)?))
}

/// The level of the root of a problem text, if it has at most so many tuples.
fn level_of(alloc: Global, text: &str, limit: u32) -> Result<Option<Level>, Fail> {
    let root = low_tuple(alloc, text)?;
    Ok(level_within(alloc, &root, limit)?)
}

/// The level of the root of a problem text, which has at most so many tuples.
fn level(alloc: Global, text: &str, limit: u32) -> Result<Level, Fail> {
    Ok(level_of(alloc, text, limit)?.ok_or("passed")?)
}

/// Whether texts spell the words of the tuples of the level of a generator, whether its root is b, and the place of that.
fn generator_level(alloc: Global, texts: &[&str]) -> Result<(bool, bool, Option<usize>), Fail> {
    let level = level(alloc, "rank 2\ntuple b\n", 4)?;
    let root = level.root();
    Ok((
        have_words(level.tuples(), texts),
        has_words(root, &["b"]),
        level.place(root),
    ))
}

#[test]
fn the_level_of_a_generator_has_four_tuples(rt: HostRuntime) -> Result<(), Fail> {
    let seen = generator_level(rt.alloc(), &["a", "A", "b", "B"])?;
    assert_eq!(rt; seen, (true, true, Some(2)));
    Ok(())
}

/// Whether a level has at most so many tuples.
fn is_within(alloc: Global, text: &str, limit: u32) -> Result<bool, Fail> {
    let level = level_of(alloc, text, limit)?;
    Ok(level.is_some())
}

#[test]
fn a_level_passes_one_tuple_less(rt: HostRuntime) -> Result<(), Fail> {
    assert!(rt; !is_within(rt.alloc(), "rank 2\ntuple b\n", 3)?);
    Ok(())
}

/// Whether a tree has two places, the root at the first of them, and the second below it by the swap of rank 2.
fn is_one_swap(tree: &Tree) -> bool {
    let parents = tree.parent.items();
    match Move::swap(rank(2), 1) {
        Some(swap) => parents == [None, Some((0, swap))].as_slice(),
        None => false,
    }
}

/// Whether the tree of a level is that of one swap.
fn has_one_swap(alloc: Global, level: &Level) -> Result<bool, Fail> {
    let tree = tree(alloc, level)?;
    Ok(is_one_swap(&tree))
}

/// Whether texts spell the words of the tuples that a level gives.
fn gives_words(level: Level, texts: &[&str]) -> bool {
    let tuples = level.into_tuples();
    have_words(&tuples, texts)
}

/// Whether the tree of the level of a commutator is that of one swap.
fn commutator_tree(alloc: Global) -> Result<bool, Fail> {
    let level = level(alloc, "rank 2\ntuple abAB\n", 2)?;
    has_one_swap(alloc, &level)
}

/// Whether texts spell the words of the tuples that the level of a commutator gives.
fn commutator_gives(alloc: Global, texts: &[&str]) -> Result<bool, Fail> {
    Ok(gives_words(level(alloc, "rank 2\ntuple abAB\n", 2)?, texts))
}

#[test]
fn a_tree_leads_from_the_root(rt: HostRuntime) -> Result<(), Fail> {
    assert!(rt; commutator_tree(rt.alloc())?);
    assert!(rt; commutator_gives(rt.alloc(), &["abAB", "aBAb"])?);
    Ok(())
}

/// Whether each edge is found at its place.
fn are_found(edges: &[Edge]) -> bool
    requires { IsStrictlySortedBy edge_cmp edges.now }
{
    for k in 0..edges.len() {
        if edge_number(edges, edges[k].from, &edges[k].via) != Some(k) {
            return false;
        }
    }
    true
}

/// How many edges a level has, and whether each is found at its place.
fn edges_seen(alloc: Global, level: &Level) -> Result<(usize, bool), Fail> {
    let edges = edges(alloc, level)?;
    Ok((edges.len(), are_found(&edges)))
}

/// How many edges the level of a commutator has, and whether each is found at its place.
fn commutator_edges(alloc: Global) -> Result<(usize, bool), Fail> {
    let level = level(alloc, "rank 2\ntuple abAB\n", 2)?;
    edges_seen(alloc, &level)
}

/// Whether the level of a commutator has at most so many edges.
fn has_few_edges(alloc: Global, limit: usize) -> Result<bool, Fail> {
    let level = level(alloc, "rank 2\ntuple abAB\n", 2)?;
    Ok(few_edges(alloc, &level, limit)?.is_some())
}

#[test]
fn each_of_two_tuples_has_fifteen_edges(rt: HostRuntime) -> Result<(), Fail> {
    assert_eq!(rt; commutator_edges(rt.alloc())?, (30, true));
    assert!(rt; has_few_edges(rt.alloc(), 30)?);
    assert!(rt; !has_few_edges(rt.alloc(), 29)?);
    Ok(())
}

/// The first walk in a level to the tuple of a problem text.
fn walk_in(alloc: Global, level: &Level, target: &str) -> Result<Option<Vec<Move>>, Fail> {
    let target = tuple(alloc, target)?;
    Ok(walk(alloc, level, &target)?)
}

/// The first walk in the level of a commutator to the tuple of a problem text.
fn walk_to(alloc: Global, target: &str) -> Result<Option<Vec<Move>>, Fail> {
    let level = level(alloc, "rank 2\ntuple abAB\n", 2)?;
    walk_in(alloc, &level, target)
}

/// How many moves the first walk has, and the kind of the first of them.
fn walk_seen(alloc: Global, target: &str) -> Result<Option<(usize, Option<Kind>)>, Fail> {
    let walk = walk_to(alloc, target)?;
    Ok(
        walk.as_ref()
            .map(|moves| (moves.len(), moves.first().map(|m| m.kind()))),
    )
}

#[test]
fn a_walk_takes_the_first_move(rt: HostRuntime) -> Result<(), Fail> {
    let seen = walk_seen(rt.alloc(), "rank 2\ntuple aBAb\n")?;
    assert_eq!(rt; seen, Some((1, Some(Kind::Swap(1)))));
    Ok(())
}

#[test]
fn the_walk_to_the_root_is_empty(rt: HostRuntime) -> Result<(), Fail> {
    let seen = walk_seen(rt.alloc(), "rank 2\ntuple abAB\n")?;
    assert_eq!(rt; seen, Some((0, None)));
    Ok(())
}

#[test]
fn no_walk_leads_off_the_level(rt: HostRuntime) -> Result<(), Fail> {
    assert_eq!(rt; walk_seen(rt.alloc(), "rank 2\ntuple aabb\n")?, None);
    Ok(())
}
