//! The answer to a problem.
ghost use Rattle.std.specs.Prelude.{◌≡◌, ℕ, IfOk};
ghost use Rattle.wh_data.specs.ProblemData.{problem_of};
ghost use Rattle.wh_data.specs.ProblemData.ProblemData.{reduce as to_reduce, decide as to_decide, stabiliser as to_stabiliser};
ghost use Rattle.wh_data.specs.AnswerTexts.{IsPrintable, IsPrintableVerdict};
ghost use Rattle.wh_data.specs.AnswerData.{answer_of, verdict_of};
ghost use Rattle.wh_answer.specs.Answers.{Answers, IsAnswerable, IsVerdict};
ghost use Rattle.wh_answer.specs.Certified.{IsDecided, IsValid};

use crate::deciding::decide;
use crate::presenting::present;
use crate::side::side_of;
use std::alloc::Global;
use wh_data::{Answer, Problem, Verdict};
use wh_reduce::reduce;
use wh_words::{OutOfMemory, Tuple};

/// The answer where a tuple is to be reduced.
fn reduced(alloc: Global, tuple: &Tuple) -> Result<Answer, OutOfMemory>
    ensures answers { (limit : ℕ) → IfOk result (Answers limit (to_reduce tuple.now.plain)) }
    ensures printable { IfOk result (λ a. IsPrintable (answer_of a)) }
    ensures valid { IfOk result (λ a. IsDecided (answer_of a) → IsValid (answer_of a)) }
{
    // The proof takes from these calls that it is a tuple, and of which ranks.
    tuple.rank().get();
    let trace = reduce(alloc, tuple)?;
    let side = side_of(alloc, trace)?;
    match tuple.copy(alloc) {
        Ok(tuple) => Ok(Answer::Reduce { tuple, side }),
        Err(error) => {
            drop(side);
            Err(error)
        }
    }
}

/// Copies of two tuples.
fn copies(alloc: Global, first: &Tuple, second: &Tuple) -> Result<(Tuple, Tuple), OutOfMemory>
    ensures first { IfOk result (λ both. both.0.plain ≡ first.now.plain) }
    ensures second { IfOk result (λ both. both.1.plain ≡ second.now.plain) }
{
    let first = first.copy(alloc)?;
    let second = second.copy(alloc)?;
    Ok((first, second))
}

/// The answer that is this verdict on two tuples.
fn answer_with(
    alloc: Global,
    first: &Tuple,
    second: &Tuple,
    verdict: Verdict,
) -> Result<Answer, OutOfMemory>
    requires printable { IsPrintableVerdict (verdict_of verdict) }
    ensures answers { (limit : ℕ) → IsVerdict limit first.now.plain second.now.plain verdict → IfOk result (Answers limit (to_decide first.now.plain second.now.plain)) }
    ensures printable { IfOk result (λ a. IsPrintable (answer_of a)) }
{
    match copies(alloc, first, second) {
        Ok((first, second)) => Ok(Answer::Decide {
            first,
            second,
            verdict,
        }),
        Err(error) => {
            drop(verdict);
            Err(error)
        }
    }
}

/// The answer where a verdict on two tuples is asked for.
fn decided(alloc: Global, first: &Tuple, second: &Tuple, limit: u32) -> Result<Answer, OutOfMemory>
    requires { IsAnswerable (to_decide first.now.plain second.now.plain) }
    ensures answers { IfOk result (Answers limit (to_decide first.now.plain second.now.plain)) }
    ensures printable { IfOk result (λ a. IsPrintable (answer_of a)) }
    ensures valid { IfOk result (λ a. IsDecided (answer_of a) → IsValid (answer_of a)) }
{
    // The proof takes from these calls that both are tuples.
    first.rank().get();
    second.rank();
    let verdict = decide(alloc, first, second, limit)?;
    answer_with(alloc, first, second, verdict)
}

/// The answer where the stabiliser of a tuple is asked for.
fn presented(alloc: Global, tuple: &Tuple, limit: u32) -> Result<Answer, OutOfMemory>
    requires { IsAnswerable (to_stabiliser tuple.now.plain) }
    ensures answers { IfOk result (Answers limit (to_stabiliser tuple.now.plain)) }
    ensures printable { IfOk result (λ a. IsPrintable (answer_of a)) }
    ensures valid { IfOk result (λ a. IsDecided (answer_of a) → IsValid (answer_of a)) }
{
    // The proof takes from this call that it is a tuple.
    tuple.rank();
    let verdict = present(alloc, tuple, limit)?;
    match tuple.copy(alloc) {
        Ok(tuple) => Ok(Answer::Stabiliser { tuple, verdict }),
        Err(error) => {
            drop(verdict);
            Err(error)
        }
    }
}

/// The answer to a problem, where levels may have at most so many tuples. The problem isn't one of `straighten`. The
/// answer can be printed.
///
/// A tuple that is to be reduced is answered with its trace, the end of that, and the first flows of the end. For two
/// tuples of one rank, at most MOST_LEVEL_RANK, and with equally many words the verdict is the first of these cases
/// that holds of the ends of their traces: a no where their lengths differ; a yes where they are one tuple; undecided
/// where they have more than 256 letters; undecided where the level of the first end has more tuples than the limit; a
/// yes where the second end is in this level; and a no with the whole level where it isn't. The moves of a yes carry
/// the first tuple onto the second (Lyndon and Schupp, I.4). The stabiliser of a tuple, of rank MOST_STABILISER_RANK at
/// most, is answered with the side of the tuple, the level of its end, the tree of first walks, the generators off the tree
/// and the relators (McCool 1975); it is undecided where the end has more than 256 letters, the level has more tuples than
/// the limit, or it has too many edges or relators. An answer that isn't undecided is a valid certificate: its lines keep
/// all the rules that `wh_cert` judges by.
pub fn answer(alloc: Global, problem: &Problem, limit: u32) -> Result<Answer, OutOfMemory>
    requires { IsAnswerable (problem_of problem.now) }
    ensures answers { IfOk result (Answers limit (problem_of problem.now)) }
    ensures printable { IfOk result (λ a. IsPrintable (answer_of a)) }
    ensures valid { IfOk result (λ a. IsDecided (answer_of a) → IsValid (answer_of a)) }
{
    match problem {
        Problem::Reduce { tuple } => reduced(alloc, tuple),
        Problem::Decide { first, second } => decided(alloc, first, second, limit),
        Problem::Stabiliser { tuple } => presented(alloc, tuple, limit),
        Problem::Straighten { .. } => unreachable!(),
    }
}
