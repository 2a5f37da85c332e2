//! What the words of the command line ask.
ghost use Rattle.std.specs.Prelude.{◌≡◌, map, option_map};
ghost use Rattle.whitehead.specs.Asked.{Tells, asked, asked_by, task_in};
ghost use Rattle.whitehead.specs.Asked as spec;

use crate::limits::{MOST_WORKERS, STANDING_LIMIT, STANDING_WORKERS};
use crate::parsing::parsed_words;
use clap::error::ErrorKind;
use std::alloc::Global;
use thiserror::Error;
use wh_text::{Command, canonical_number};
use wh_words::MOST_LEVEL_TUPLES;

/// What is to be done.
#[derive(Clone, Copy, Debug, PartialEq, Eq)]
pub enum Task {
    /// To answer a problem of a command.
    Answer(Command),
    /// To check an answer.
    Check,
}

/// What is asked: a task, the greatest number of tuples of a level, and the number of workers.
#[derive(Clone, Copy, Debug, PartialEq, Eq)]
pub struct Arguments {
    pub task: Task,
    pub limit: u32,
    pub workers: u32,
}

/// Why the words ask nothing.
#[derive(Clone, Copy, Debug, PartialEq, Eq, Error)]
pub enum WordsError {
    /// They aren't a command with options of the program.
    #[error("the words are refused")]
    Refused,
    /// There was no memory.
    #[error("out of memory")]
    OutOfMemory,
}

/// The task of a name, where it is given.
fn named_task(name: Option<&str>) -> Option<Task>
    ensures { result ≡ task_in (option_map (λ t. t.now) name.entry) }
{
    let name = name?;
    match Command::named(name.as_bytes()) {
        Some(command) => Some(Task::Answer(command)),
        None if name == "check" => Some(Task::Check),
        None => None,
    }
}

/// The number of an option, or the standing one where the option isn't given. None where its text is no canonical number
/// of the range.
fn option_in(least: u32, most: u32, standing: u32, text: Option<&str>) -> Option<u32>
    ensures { result ≡ spec.option_in least most standing (option_map (λ t. t.now) text.entry) }
{
    let Some(text) = text else {
        return Some(standing);
    };
    match canonical_number(text.as_bytes()) {
        Some(n) => {
            if n >= least as u64 && n <= most as u64 {
                Some(n as u32)
            } else {
                None
            }
        }
        None => None,
    }
}

/// What the three texts ask.
fn arguments_of(name: Option<&str>, limit: Option<&str>, workers: Option<&str>) -> Option<Arguments>
    ensures { result ≡ asked_by (option_map (λ t. t.now) name.entry) (option_map (λ t. t.now) limit.entry) (option_map (λ t. t.now) workers.entry) }
{
    let task = named_task(name)?;
    let limit = option_in(1, MOST_LEVEL_TUPLES, STANDING_LIMIT, limit)?;
    let workers = option_in(1, MOST_WORKERS, STANDING_WORKERS, workers)?;
    Some(Arguments {
        task,
        limit,
        workers,
    })
}

/// What the words after the program's name ask: COMMAND, which is the name of a `Command` or `check`, and the options
/// `--limit N` with N from 1 to MOST_LEVEL_TUPLES, which stands at STANDING_LIMIT, and `--workers N` with N from 1 to
/// MOST_WORKERS, which stands at STANDING_WORKERS. `Refused` comes exactly where the parser refuses the words, the command
/// is another word, or an option's text is no canonical number of its range.
#[tactic(auto, using(crate::proofs::Parsed::refused, crate::proofs::Parsed::asked_is))]
pub fn read_arguments(alloc: Global, words: &[&str]) -> Result<Arguments, WordsError>
    ensures { Tells result (asked (map (λ w. w.now) words.now)) }
{
    match parsed_words(alloc, words) {
        Ok(found) => {
            let name = found.get_str("COMMAND");
            let limit = found.get_str("limit");
            let workers = found.get_str("workers");
            arguments_of(name, limit, workers).ok_or(WordsError::Refused)
        }
        Err(error) => {
            if error.kind() == ErrorKind::OutOfMemory {
                Err(WordsError::OutOfMemory)
            } else {
                Err(WordsError::Refused)
            }
        }
    }
}
