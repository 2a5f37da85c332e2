//! The images of a tuple under its level moves, looked up in a list.
ghost use Rattle.std.specs.Prelude.{◌≡◌, ◌↔◌, ◌*◌, ◌^◌, ◌≤◌, IsTrue, Contains, IfOk};
ghost use Rattle.wh_words.specs.Limits.{most_rank, most_level_rank};
ghost use Rattle.wh_words.specs.LetterSets.{in_set};
ghost use Rattle.wh_words.specs.Tuples.{IsTuple};
ghost use Rattle.wh_words.specs.Moves.{cut_move};
ghost use Rattle.wh_words.specs.Action as spec;
ghost use Rattle.wh_words.specs.Edges.{cap, deg};
ghost use Rattle.wh_words.specs.Levels.{IsLevelMove};
ghost use Rattle.wh_graph.specs.Graphs.{IsGraph};
ghost use Rattle.wh_cert.specs.Demands.{ImagesAreIn};
ghost use Rattle.wh_cert.specs.Listings.{StaysIn, SwapsStay, InversionsStay, CutsStayWith, CutsStay, IsRoomy};
ghost use Rattle.wh_graph.specs.CapacityTables.{IsTable, tuple_capacity};

use std::alloc::Global;
use wh_flow::Net;
use wh_graph::{capacity_table, deg, graph};
use wh_moves::{Move, act_into};
use wh_sets::TupleSet;
use wh_words::{Letter, LetterSet, OutOfMemory, Tuple};

/// Whether the image of a tuple under a level move, which `image` becomes, is in a list. It takes no memory.
fn image_is_in(listed: &TupleSet, tuple: &Tuple, m: &Move, image: &mut Tuple) -> bool
    requires tuple { IsTuple tuple.now.plain }
    requires level { IsLevelMove tuple.now.plain m.now }
    requires roomy { IsRoomy image.old }
    ensures is_in { IsTrue result ↔ Contains listed.now (spec.act tuple.now.plain m.now) }
    ensures roomy { IsRoomy image.new }
{
    act_into(tuple, m, image);
    listed.has(image)
}

/// Whether a tuple stays in a list under all swaps. They keep its length.
fn swaps_stay(listed: &TupleSet, tuple: &Tuple, image: &mut Tuple) -> bool
    requires roomy { IsRoomy image.old }
    ensures stay { IsTrue result ↔ SwapsStay listed.now tuple.now.plain }
    ensures roomy { IsRoomy image.new }
{
    let rank = tuple.rank();
    for k in 1..rank.get() {
        if !image_is_in(listed, tuple, &Move::swap(rank, k).unwrap(), image) {
            return false;
        }
    }
    true
}

/// Whether a tuple stays in a list under all inversions. They keep its length.
fn inversions_stay(listed: &TupleSet, tuple: &Tuple, image: &mut Tuple) -> bool
    requires roomy { IsRoomy image.old }
    ensures stay { IsTrue result ↔ InversionsStay listed.now tuple.now.plain }
    ensures roomy { IsRoomy image.new }
{
    let rank = tuple.rank();
    for k in 1..rank.get() + 1 {
        if !image_is_in(listed, tuple, &Move::invert(rank, k).unwrap(), image) {
            return false;
        }
    }
    true
}

/// Whether a tuple stays in a list under the cut with a set whose capacity is the degree of the multiplier. It does if
/// that is no cut, or an identity cut.
fn cut_stays(
    listed: &TupleSet,
    tuple: &Tuple,
    mult: Letter,
    set: LetterSet,
    image: &mut Tuple,
) -> bool
    requires rank { tuple.now.plain.rank ≤ most_rank }
    requires keeps { cap (in_set set) tuple.now.plain ≡ deg mult tuple.now.plain }
    requires roomy { IsRoomy image.old }
    ensures stay { IsTrue result ↔ StaysIn listed.now tuple.now.plain (cut_move tuple.now.plain.rank mult set) }
    ensures roomy { IsRoomy image.new }
{
    let Some(m) = Move::cut(tuple.rank(), mult, set) else {
        return true;
    };
    if m.is_identity() {
        return true;
    }
    image_is_in(listed, tuple, &m, image)
}

/// Whether a tuple stays in a list under all cuts with a multiplier. Those keep the length whose set has the degree of
/// the multiplier as its capacity (Lyndon and Schupp, I.4), so that no other image is made.
fn cuts_stay_with(
    listed: &TupleSet,
    tuple: &Tuple,
    mult: Letter,
    degree: u32,
    capacities: &[u32],
    image: &mut Tuple,
) -> bool
    requires rank { tuple.now.plain.rank ≤ most_rank }
    requires tuple { IsTuple tuple.now.plain }
    requires degree { degree ≡ deg mult tuple.now.plain }
    requires capacities { IsTable (tuple_capacity tuple.now.plain) (2 ^ (2 * tuple.now.plain.rank)) capacities.now }
    requires roomy { IsRoomy image.old }
    ensures stay { IsTrue result ↔ CutsStayWith listed.now tuple.now.plain mult }
    ensures roomy { IsRoomy image.new }
{
    for set in 0..capacities.len() {
        if capacities[set] == degree
            && !cut_stays(listed, tuple, mult, LetterSet::of_bits(set as u64), image)
        {
            return false;
        }
    }
    true
}

/// Whether a tuple stays in a list under all cuts with generators as multipliers.
fn cuts_stay(
    listed: &TupleSet,
    tuple: &Tuple,
    net: &Net,
    capacities: &[u32],
    image: &mut Tuple,
) -> bool
    requires graph { IsGraph net.now tuple.now.plain }
    requires capacities { IsTable (tuple_capacity tuple.now.plain) (2 ^ (2 * tuple.now.plain.rank)) capacities.now }
    requires roomy { IsRoomy image.old }
    ensures stay { IsTrue result ↔ CutsStay listed.now tuple.now.plain }
    ensures roomy { IsRoomy image.new }
{
    for g in 0..tuple.rank().get() {
        let mult = Letter::of_index(2 * g);
        if !cuts_stay_with(listed, tuple, mult, deg(net, mult), capacities, image) {
            return false;
        }
    }
    true
}

/// Whether the images of a tuple of a list under its level moves are in the list too, where the rank is MOST_LEVEL_RANK
/// at most. Swaps, inversions and cuts are tried. A cut and the cut with the complement of its set and the inverse of
/// its multiplier have one image, so that generators are all the multipliers that are needed.
pub(crate) fn images_are_in(
    alloc: Global,
    listed: &TupleSet,
    tuple: &Tuple,
    image: &mut Tuple,
) -> Result<bool, OutOfMemory>
    requires tuple { IsTuple tuple.now.plain }
    requires rank { tuple.now.plain.rank ≤ most_level_rank }
    requires own { Contains listed.now tuple.now.plain }
    requires roomy { IsRoomy image.old }
    ensures are { IfOk result (λ b. IsTrue b ↔ ImagesAreIn listed.now tuple.now.plain) }
    ensures roomy { IsRoomy image.new }
{
    if !swaps_stay(listed, tuple, image) {
        return Ok(false);
    }
    if !inversions_stay(listed, tuple, image) {
        return Ok(false);
    }
    let net = graph(tuple);
    let capacities = capacity_table(alloc, &net)?;
    Ok(cuts_stay(listed, tuple, &net, &capacities, image))
}
