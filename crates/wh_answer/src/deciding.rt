//! The verdict on two tuples.
ghost use Rattle.std.specs.Prelude.{◌≡◌, ◌≢◌, ℕ, ◌≤◌, length, map, IfOk};
ghost use Rattle.wh_words.specs.Limits.{most_level_rank, most_level_length};
ghost use Rattle.wh_words.specs.Tuples.{TupleData, tuple_length};
ghost use Rattle.wh_words.specs.CapacityTraces.{IsFlatByCapacities, IsCapacityTrace};
ghost use Rattle.wh_words.specs.Levels.{InLevel, IsLevel};
ghost use Rattle.wh_data.specs.AnswerData.{side_of as told_side, verdict_of};
ghost use Rattle.wh_data.specs.AnswerTexts.{IsPrintableSide, IsPrintableVerdict};
ghost use Rattle.wh_answer.specs.Sides.{IsSideOf};
ghost use Rattle.wh_answer.specs.Answers.{IsVerdict};
ghost use Rattle.wh_answer.specs.Findings.{Finds};
ghost use Rattle.wh_answer.specs.Traced.{AreTraced, AreApart};

use crate::finding::{Finding, find};
use crate::side::side_of;
use std::alloc::Global;
use wh_data::{Side, Verdict};
use wh_reduce::{Trace, reduce};
use wh_words::{List, OutOfMemory, Tuple};

/// A side, and beside it that of the tuple that has this trace.
fn sides_with(alloc: Global, first: Side, second: Trace) -> Result<(Side, Side), OutOfMemory>
    requires flat { IsFlatByCapacities second.end.plain }
    requires printable { IsPrintableSide (told_side first) }
    ensures first { IfOk result (λ sides. sides.0 ≡ first) }
    ensures second { (t : TupleData) → IsCapacityTrace t second.moves second.end.plain → IfOk result (λ sides. IsSideOf t sides.1) }
    ensures own { IfOk result (λ sides. (sides.1.trace ≡ second.moves) × (sides.1.end ≡ second.end)) }
    ensures printable { IfOk result (λ sides. IsPrintableSide (told_side sides.0) × IsPrintableSide (told_side sides.1)) }
{
    match side_of(alloc, second) {
        Ok(second) => Ok((first, second)),
        Err(error) => {
            drop(first);
            Err(error)
        }
    }
}

/// The sides of two tuples that have these traces.
fn sides_of(alloc: Global, first: Trace, second: Trace) -> Result<(Side, Side), OutOfMemory>
    requires first_flat { IsFlatByCapacities first.end.plain }
    requires second_flat { IsFlatByCapacities second.end.plain }
    ensures first { (s t : TupleData) → AreTraced s t first second → IfOk result (λ sides. IsSideOf s sides.0) }
    ensures second { (s t : TupleData) → AreTraced s t first second → IfOk result (λ sides. IsSideOf t sides.1) }
    ensures first_own { IfOk result (λ sides. (sides.0.trace ≡ first.moves) × (sides.0.end ≡ first.end)) }
    ensures second_own { IfOk result (λ sides. (sides.1.trace ≡ second.moves) × (sides.1.end ≡ second.end)) }
    ensures printable { IfOk result (λ sides. IsPrintableSide (told_side sides.0) × IsPrintableSide (told_side sides.1)) }
{
    match side_of(alloc, first) {
        Ok(first) => sides_with(alloc, first, second),
        Err(error) => {
            drop(second);
            Err(error)
        }
    }
}

/// The verdict where the traces end at different lengths.
fn other_lengths(alloc: Global, first: Trace, second: Trace) -> Result<Verdict, OutOfMemory>
    requires first_flat { IsFlatByCapacities first.end.plain }
    requires second_flat { IsFlatByCapacities second.end.plain }
    requires lengths { tuple_length first.end.plain ≢ tuple_length second.end.plain }
    ensures verdict { (limit : ℕ) (s t : TupleData) → AreTraced s t first second → IfOk result (IsVerdict limit s t) }
    ensures printable { IfOk result (λ v. IsPrintableVerdict (verdict_of v)) }
{
    let (first, second) = sides_of(alloc, first, second)?;
    Ok(Verdict::NoLength(first, second))
}

/// The verdict where the second end isn't in the level of the first.
fn off_level(
    alloc: Global,
    first: Trace,
    second: Trace,
    level: List<Tuple>,
) -> Result<Verdict, OutOfMemory>
    requires first_flat { IsFlatByCapacities first.end.plain }
    requires second_flat { IsFlatByCapacities second.end.plain }
    requires apart { AreApart first second }
    requires low { tuple_length first.end.plain ≤ most_level_length }
    requires level { IsLevel first.end.plain (map (λ u. u.plain) level) }
    requires off { ¬ (InLevel first.end.plain second.end.plain) }
    ensures verdict { (limit : ℕ) (s t : TupleData) → length level ≤ limit → AreTraced s t first second → IfOk result (IsVerdict limit s t) }
    ensures printable { IfOk result (λ v. IsPrintableVerdict (verdict_of v)) }
{
    let (first, second) = sides_of(alloc, first, second)?;
    Ok(Verdict::NoLevel(first, second, level))
}

/// The verdict that follows from what was found.
fn verdict_by(
    alloc: Global,
    first: Trace,
    second: Trace,
    found: Finding,
) -> Result<Verdict, OutOfMemory>
    requires first_flat { IsFlatByCapacities first.end.plain }
    requires second_flat { IsFlatByCapacities second.end.plain }
    requires found { (limit : ℕ) × Finds limit first second found }
    ensures verdict { (limit : ℕ) (s t : TupleData) → Finds limit first second found → AreTraced s t first second → IfOk result (IsVerdict limit s t) }
    ensures printable { IfOk result (λ v. IsPrintableVerdict (verdict_of v)) }
{
    match found {
        Finding::Moves(moves) => {
            drop(first);
            drop(second);
            Ok(Verdict::Yes(moves))
        }
        Finding::Bound(bound) => {
            drop(first);
            drop(second);
            Ok(Verdict::Undecided(bound))
        }
        Finding::Lengths => other_lengths(alloc, first, second),
        Finding::Level(level) => off_level(alloc, first, second, level),
    }
}

/// The verdict on two tuples that have these traces.
fn decide_traced(
    alloc: Global,
    first: Trace,
    second: Trace,
    limit: u32,
) -> Result<Verdict, OutOfMemory>
    requires rank { first.end.plain.rank ≤ most_level_rank }
    requires first_flat { IsFlatByCapacities first.end.plain }
    requires second_flat { IsFlatByCapacities second.end.plain }
    ensures verdict { (s t : TupleData) → AreTraced s t first second → IfOk result (IsVerdict limit s t) }
    ensures printable { IfOk result (λ v. IsPrintableVerdict (verdict_of v)) }
{
    match find(alloc, &first, &second, limit) {
        Ok(found) => verdict_by(alloc, first, second, found),
        Err(error) => {
            drop(first);
            drop(second);
            Err(error)
        }
    }
}

/// The verdict on two tuples of one rank, which is at most MOST_LEVEL_RANK.
pub fn decide(
    alloc: Global,
    first: &Tuple,
    second: &Tuple,
    limit: u32,
) -> Result<Verdict, OutOfMemory>
    requires rank { first.now.plain.rank ≤ most_level_rank }
    requires one_rank { first.now.plain.rank ≡ second.now.plain.rank }
    ensures verdict { IfOk result (IsVerdict limit first.now.plain second.now.plain) }
    ensures printable { IfOk result (λ v. IsPrintableVerdict (verdict_of v)) }
{
    // The proof takes from these calls that both are tuples.
    first.rank();
    second.rank();
    let first = reduce(alloc, first)?;
    match reduce(alloc, second) {
        Ok(second) => decide_traced(alloc, first, second, limit),
        Err(error) => {
            drop(first);
            Err(error)
        }
    }
}
