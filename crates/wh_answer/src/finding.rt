//! What is found of two tuples by their traces.
ghost use Rattle.std.specs.Prelude.{◌≡◌, ℕ, ◌≤◌, ◌++◌, length, IfOk};
ghost use Rattle.wh_words.specs.Limits.{most_level_rank, most_level_length};
ghost use Rattle.wh_words.specs.Tuples.{tuple_length};
ghost use Rattle.wh_words.specs.MoveLists.{inverse_list};
ghost use Rattle.wh_level.specs.Trees.{IsClosedLevel};
ghost use Rattle.wh_answer.specs.declared.finding.Finding.TheVariants as findings;
ghost use Rattle.wh_answer.specs.Findings.{Finds};
ghost use Rattle.wh_answer.specs.Traced.{AreApart};

use crate::exploring::explore;
use std::alloc::Global;
use wh_data::Bound;
use wh_level::Level;
use wh_moves::{Move, joined};
use wh_reduce::Trace;
use wh_walk::walk;
use wh_words::{List, MOST_LEVEL_LENGTH, OutOfMemory, Tuple};
use wh_workers::Explored;

/// What decides two tuples whose traces are known. The sides of a no aren't made yet.
#[derive(Drop)]
pub(crate) enum Finding {
    /// These moves carry the first tuple onto the second.
    Moves(List<Move>),
    /// The traces end at different lengths.
    Lengths,
    /// The second end isn't among these tuples, the level of the first.
    Level(List<Tuple>),
    /// A bound stops the work.
    Bound(Bound),
}

/// The moves of a trace, then others, and then the inverse of a second trace.
fn moves_by(
    alloc: Global,
    first: &Trace,
    between: &[Move],
    second: &Trace,
) -> Result<Finding, OutOfMemory>
    ensures { IfOk result (λ f. f ≡ findings.Moves (first.now.moves ++ (between.now ++ inverse_list second.now.moves))) }
{
    let moves = joined(alloc, first.moves.items(), between, second.moves.items())?;
    Ok(Finding::Moves(List::of(moves)))
}

/// What is found where the traces end apart, and the level of the first end is known.
fn find_in(
    alloc: Global,
    first: &Trace,
    second: &Trace,
    level: Level,
) -> Result<Finding, OutOfMemory>
    requires apart { AreApart first.now second.now }
    requires low { tuple_length first.now.end.plain ≤ most_level_length }
    requires closed { IsClosedLevel level }
    requires root { level.root ≡ first.now.end.plain }
    ensures { (limit : ℕ) → length level.tuples ≤ limit → IfOk result (Finds limit first.now second.now) }
{
    match walk(alloc, &level, &second.end) {
        Ok(Some(moves)) => {
            drop(level);
            moves_by(alloc, first, &moves, second)
        }
        Ok(None) => Ok(Finding::Level(List::of(level.into_tuples()))),
        Err(error) => {
            drop(level);
            Err(error)
        }
    }
}

/// What is found where the traces end apart.
fn find_apart(
    alloc: Global,
    first: &Trace,
    second: &Trace,
    limit: u32,
) -> Result<Finding, OutOfMemory>
    requires rank { first.now.end.plain.rank ≤ most_level_rank }
    requires apart { AreApart first.now second.now }
    ensures { IfOk result (Finds limit first.now second.now) }
{
    let letters = first.end.length();
    if letters > MOST_LEVEL_LENGTH {
        return Ok(Finding::Bound(Bound::Length(letters)));
    }
    match explore(alloc, &first.end, limit)? {
        Explored::Passed => Ok(Finding::Bound(Bound::Level(limit))),
        Explored::Closed(level) => find_in(alloc, first, second, level),
    }
}

/// What is found of two tuples by their traces, where the rank is at most MOST_LEVEL_RANK and levels may have at most
/// so many tuples.
pub(crate) fn find(
    alloc: Global,
    first: &Trace,
    second: &Trace,
    limit: u32,
) -> Result<Finding, OutOfMemory>
    requires { first.now.end.plain.rank ≤ most_level_rank }
    ensures { IfOk result (Finds limit first.now second.now) }
{
    if first.end.length() != second.end.length() {
        return Ok(Finding::Lengths);
    }
    if first.end.same(&second.end) {
        return moves_by(alloc, first, &[], second);
    }
    find_apart(alloc, first, second, limit)
}
