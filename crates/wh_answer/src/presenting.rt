//! What is found of the stabiliser of a tuple.
ghost use Rattle.std.specs.Prelude.{◌≡◌, ℕ, ◌≤◌, [], length, map, IfOk, OnOk};
ghost use Rattle.wh_words.specs.Limits.{most_stabiliser_rank, most_level_length};
ghost use Rattle.wh_words.specs.Tuples.{TupleData, IsTuple, tuple_length};
ghost use Rattle.wh_words.specs.Moves as moves;
ghost use Rattle.wh_words.specs.CapacityTraces.{IsFlatByCapacities, IsCapacityTrace};
ghost use Rattle.wh_level.specs.Trees.{LevelData};
ghost use Rattle.wh_stab.specs.Relators.{relator_of};
ghost use Rattle.wh_stab.specs.Stabilisers.{IsStabiliser};
ghost use Rattle.wh_answer.specs.StabiliserAnswers.{told_loop, HasLevel, ArePartsOf, Presents};
ghost use Rattle.wh_answer.specs.StabiliserFindings.{Finds};
ghost use Rattle.std.specs.Prelude as prelude;

use crate::exploring::explore;
use crate::side::side_of;
use std::alloc::Global;
use wh_data::{Bound, Loop, Parts, StabVerdict};
use wh_level::Level;
use wh_reduce::{Trace, reduce};
use wh_stab::{Relator, Stab, Stabilised, stabiliser};
use wh_words::{List, MOST_LEVEL_LENGTH, OutOfMemory, Tuple};
use wh_workers::Explored;

/// What is found of the stabiliser of a tuple whose trace is known. The side isn't made yet.
#[derive(Drop)]
pub(crate) enum Presenting {
    /// What presents it.
    Parts(Parts),
    /// A bound stops the work.
    Bound(Bound),
}

/// Makes relators those of an answer. It takes them out of their list.
fn push_loops(loops: &mut Vec<Loop>, relators: &mut Vec<Relator>) -> Result<(), OutOfMemory>
    requires { loops.old.items ≡ [] }
    ensures { OnOk result (map told_loop loops.new.items ≡ map relator_of relators.old.items) }
{
    relators.reverse();
    while let Some(relator) = relators.pop() {
        let Relator { at, moves, word } = relator;
        loops.push(Loop { at, moves, word })?;
    }
    Ok(())
}

/// The parts that a stabiliser has, but for its trace.
fn parts_of(alloc: Global, stab: Stab) -> Result<Parts, OutOfMemory>
    ensures { (t : TupleData) (l : LevelData) (trace : prelude.List moves.Move) → IsCapacityTrace t trace l.root → IsStabiliser t l stab → IfOk result (ArePartsOf t trace l) }
{
    let Stab {
        vertices,
        tree,
        generators,
        relators,
        ..
    } = stab;
    let mut relators = relators.into_items();
    let mut loops = Vec::new(alloc);
    push_loops(&mut loops, &mut relators)?;
    Ok(Parts {
        vertices,
        tree: tree.parent,
        generators,
        relators: List::of(loops),
    })
}

/// What is found where the level of the end of the trace is known.
fn find_in(
    alloc: Global,
    tuple: &Tuple,
    trace: &Trace,
    level: &Level,
) -> Result<Presenting, OutOfMemory>
    requires tuple { IsTuple tuple.now.plain }
    requires rank { tuple.now.plain.rank ≤ most_stabiliser_rank }
    requires trace { IsCapacityTrace tuple.now.plain trace.now.moves trace.now.end.plain }
    requires root { level.now.root ≡ trace.now.end.plain }
    ensures { (limit : ℕ) → HasLevel limit tuple.now.plain trace.now.moves level.now → IfOk result (Finds limit tuple.now.plain trace.now) }
{
    match stabiliser(alloc, tuple, trace, level)? {
        Stabilised::Done(stab) => {
            let parts = parts_of(alloc, stab)?;
            Ok(Presenting::Parts(parts))
        }
        Stabilised::Edges => Ok(Presenting::Bound(Bound::Edges)),
        Stabilised::Relators => Ok(Presenting::Bound(Bound::Relators)),
    }
}

/// What is found of a tuple by its trace, where levels may have at most so many tuples.
fn find(alloc: Global, tuple: &Tuple, trace: &Trace, limit: u32) -> Result<Presenting, OutOfMemory>
    requires tuple { IsTuple tuple.now.plain }
    requires rank { tuple.now.plain.rank ≤ most_stabiliser_rank }
    requires trace { IsCapacityTrace tuple.now.plain trace.now.moves trace.now.end.plain }
    ensures { IfOk result (Finds limit tuple.now.plain trace.now) }
{
    let letters = trace.end.length();
    if letters > MOST_LEVEL_LENGTH {
        return Ok(Presenting::Bound(Bound::Length(letters)));
    }
    match explore(alloc, &trace.end, limit)? {
        Explored::Passed => Ok(Presenting::Bound(Bound::Level(limit))),
        Explored::Closed(level) => {
            let found = find_in(alloc, tuple, trace, &level);
            drop(level);
            found
        }
    }
}

/// What is answered where this is found by a trace.
fn verdict_by(alloc: Global, trace: Trace, found: Presenting) -> Result<StabVerdict, OutOfMemory>
    requires flat { IsFlatByCapacities trace.end.plain }
    ensures { (limit : ℕ) (t : TupleData) → Finds limit t trace found → IsCapacityTrace t trace.moves trace.end.plain → IfOk result (Presents limit t) }
{
    match found {
        Presenting::Bound(bound) => {
            drop(trace);
            Ok(StabVerdict::Undecided(bound))
        }
        Presenting::Parts(parts) => match side_of(alloc, trace) {
            Ok(side) => Ok(StabVerdict::Done(side, parts)),
            Err(error) => {
                drop(parts);
                Err(error)
            }
        },
    }
}

/// What is found of the stabiliser of a tuple of rank MOST_STABILISER_RANK at most, where levels may have at most so many
/// tuples.
pub(crate) fn present(alloc: Global, tuple: &Tuple, limit: u32) -> Result<StabVerdict, OutOfMemory>
    requires { tuple.now.plain.rank ≤ most_stabiliser_rank }
    ensures { IfOk result (Presents limit tuple.now.plain) }
{
    // The proof takes from this call that it is a tuple.
    tuple.rank();
    let trace = reduce(alloc, tuple)?;
    match find(alloc, tuple, &trace, limit) {
        Ok(found) => verdict_by(alloc, trace, found),
        Err(error) => {
            drop(trace);
            Err(error)
        }
    }
}
