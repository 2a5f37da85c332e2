//! The reply to the bytes of an input.
ghost use Rattle.std.specs.Prelude.{◌≡◌, ◌≢◌, ℕ, IfOk, Ok};
ghost use Rattle.std.specs.Prelude as prelude;
ghost use Rattle.wh_data.specs.declared.command.Command.{Command};
ghost use Rattle.wh_data.specs.declared.command.Command.TheVariants as commands;
ghost use Rattle.wh_data.specs.declared.status.Status.TheVariants.{Refused};
ghost use Rattle.wh_lines.specs.declared.read_error.ReadError.TheVariants as errors;
ghost use Rattle.wh_data.specs.ProblemData.{problem_of};
ghost use Rattle.wh_data.specs.ProblemData.ProblemData.{straighten as to_straighten};
ghost use Rattle.wh_text.specs.Problems.{problem as stated};
ghost use Rattle.wh_data.specs.AnswerTexts.{answer_text, IsPrintable};
ghost use Rattle.wh_data.specs.AnswerData.{answer_of, certificate_of};
ghost use Rattle.wh_text.specs.Certificates.{certificate};
ghost use Rattle.wh_data.specs.Numberings.{IsNumbered};
ghost use Rattle.wh_text.specs.RefusalTexts.{refusal_text, too_long_text};
ghost use Rattle.wh_data.specs.Statuses.{answer_status};
ghost use Rattle.wh_peak.specs.Equivalence.{AreMovesOfRank};
ghost use Rattle.wh_answer.specs.Answers.{IsAnswerable};
ghost use Rattle.wh_answer.specs.Laws.{IsProblem};
ghost use Rattle.whitehead.specs.declared.arguments.Task.TheVariants as tasks;
ghost use Rattle.whitehead.specs.Replies.{Replies};

use crate::arguments::Task;
use crate::checked_text::{print_checked, status_of};
use std::alloc::Global;
use wh_answer::{StraightenError, answer, straightened};
use wh_cert::check;
use wh_moves::Move;
use wh_text::{
    Answer, Command, Numbered, Problem, ReadError, Status, print_answer, print_refusal,
    print_too_long, read_answer, read_problem,
};
use wh_words::{List, OutOfMemory, Tuple};

/// A status and a text.
#[derive(Debug, Drop)]
pub struct Reply {
    pub status: Status,
    pub text: List<u8>,
}

/// The reply to a refusal: its line.
fn refusal_reply(alloc: Global, refusal: ReadError) -> Result<Reply, OutOfMemory>
    requires { refusal ≢ errors.OutOfMemory }
    ensures status { IfOk result (λ r. r.status ≡ Refused) }
    ensures text { IfOk result (λ r. r.text ≡ refusal_text refusal) }
{
    let text = print_refusal(alloc, &refusal)?;
    Ok(Reply {
        status: Status::Refused,
        text: List::of(text),
    })
}

/// The reply that tells an answer: its text, with its status.
fn reply_with(alloc: Global, answer: &Answer) -> Result<Reply, OutOfMemory>
    requires { IsPrintable (answer_of answer.now) }
    ensures status { IfOk result (λ r. r.status ≡ answer_status answer.now) }
    ensures text { IfOk result (λ r. r.text ≡ answer_text (answer_of answer.now)) }
{
    let text = print_answer(alloc, answer)?;
    Ok(Reply {
        status: answer.status(),
        text: List::of(text),
    })
}

/// The reply to a list of moves on whose way a tuple has too many letters: the line that tells the first such tuple.
fn too_long_reply(alloc: Global, place: usize, length: u32) -> Result<Reply, OutOfMemory>
    ensures status { IfOk result (λ r. r.status ≡ Refused) }
    ensures text { IfOk result (λ r. r.text ≡ too_long_text place length) }
{
    let text = print_too_long(alloc, place as u64, length as u64)?;
    Ok(Reply {
        status: Status::Refused,
        text: List::of(text),
    })
}

/// The reply where a list of moves is to be straightened: a straight list, or the refusal of one that is too long on its
/// way.
fn straighten_reply(alloc: Global, tuple: &Tuple, moves: &[Move]) -> Result<Reply, OutOfMemory>
    requires { AreMovesOfRank tuple.now.plain.rank moves.now }
    ensures { (limit : ℕ) (bytes : prelude.List ℕ) → stated commands.Straighten bytes ≡ Ok (to_straighten tuple.now.plain moves.now) → IfOk result (λ r. Replies limit bytes (tasks.Answer commands.Straighten) r.status r.text) }
{
    match straightened(alloc, tuple, moves) {
        Ok(answer) => {
            let reply = reply_with(alloc, &answer);
            drop(answer);
            reply
        }
        Err(StraightenError::TooLong { place, length }) => too_long_reply(alloc, place, length),
        Err(StraightenError::OutOfMemory) => Err(OutOfMemory),
    }
}

/// The reply to a problem that has one answer.
fn answered_reply(alloc: Global, problem: &Problem, limit: u32) -> Result<Reply, OutOfMemory>
    requires { IsAnswerable (problem_of problem.now) }
    ensures { (command : Command) (bytes : prelude.List ℕ) → stated command bytes ≡ Ok (problem_of problem.now) → IfOk result (λ r. Replies limit bytes (tasks.Answer command) r.status r.text) }
{
    let answer = answer(alloc, problem, limit)?;
    let reply = reply_with(alloc, &answer);
    drop(answer);
    reply
}

/// The reply to a problem: its answer, or its refusal.
fn problem_reply(alloc: Global, problem: &Problem, limit: u32) -> Result<Reply, OutOfMemory>
    requires { IsProblem (problem_of problem.now) }
    ensures { (command : Command) (bytes : prelude.List ℕ) → stated command bytes ≡ Ok (problem_of problem.now) → IfOk result (λ r. Replies limit bytes (tasks.Answer command) r.status r.text) }
{
    match problem {
        Problem::Straighten { tuple, moves } => straighten_reply(alloc, tuple, moves.items()),
        Problem::Reduce { .. } | Problem::Decide { .. } | Problem::Stabiliser { .. } => {
            answered_reply(alloc, problem, limit)
        }
    }
}

/// The reply to the text of a problem: the line of its first refusal, or the text of its answer.
#[tactic(auto, using(crate::proofs::ReadProblems::read_problem))]
fn answer_reply(
    alloc: Global,
    command: Command,
    limit: u32,
    bytes: &[u8],
) -> Result<Reply, OutOfMemory>
    ensures { IfOk result (λ r. Replies limit bytes.now (tasks.Answer command) r.status r.text) }
{
    match read_problem(alloc, command, bytes) {
        Ok(problem) => {
            let reply = problem_reply(alloc, &problem, limit);
            drop(problem);
            reply
        }
        Err(ReadError::OutOfMemory) => Err(OutOfMemory),
        Err(refusal) => refusal_reply(alloc, refusal),
    }
}

/// The reply to an answer that is to be checked: what is found of it.
fn certificate_reply(alloc: Global, numbered: &Numbered) -> Result<Reply, OutOfMemory>
    requires { IsNumbered (certificate_of numbered.now) }
    ensures { (limit : ℕ) (bytes : prelude.List ℕ) → certificate bytes ≡ Ok (certificate_of numbered.now) → IfOk result (λ r. Replies limit bytes tasks.Check r.status r.text) }
{
    let found = check(alloc, numbered)?;
    let text = print_checked(alloc, found)?;
    Ok(Reply {
        status: status_of(found),
        text: List::of(text),
    })
}

/// The reply to the text of an answer that is to be checked: the line of its first refusal, or what is found.
fn check_reply(alloc: Global, limit: u32, bytes: &[u8]) -> Result<Reply, OutOfMemory>
    ensures { IfOk result (λ r. Replies limit bytes.now tasks.Check r.status r.text) }
{
    match read_answer(alloc, bytes) {
        Ok(numbered) => {
            let reply = certificate_reply(alloc, &numbered);
            drop(numbered);
            reply
        }
        Err(ReadError::OutOfMemory) => Err(OutOfMemory),
        Err(refusal) => refusal_reply(alloc, refusal),
    }
}

/// The reply to the bytes of an input, where levels may have at most `limit` tuples. A problem is answered, and an answer
/// is checked, whoever wrote it. `Refused` comes with the line of the first refusal; else the text is that of the answer,
/// with its status, or the verdict on the certificate, with `Done` or `No`.
pub fn reply_to(alloc: Global, task: Task, limit: u32, bytes: &[u8]) -> Result<Reply, OutOfMemory>
    ensures { IfOk result (λ r. Replies limit bytes.now task r.status r.text) }
{
    match task {
        Task::Answer(command) => answer_reply(alloc, command, limit, bytes),
        Task::Check => check_reply(alloc, limit, bytes),
    }
}
