//! Reading of problems.
ghost use Rattle.std.specs.Prelude.{◌≡◌, ◌<◌, ◌^◌, length, map, IfOk, IfErr, Ok, Err};
ghost use Rattle.wh_lines.specs.declared.read_error.ReadError.TheVariants.{InputTooLong};
ghost use Rattle.wh_lines.specs.Readings.{Gives, Refuses};
ghost use Rattle.wh_text.specs.Problems as spec;
ghost use Rattle.wh_data.specs.ProblemData.{problem_of};
ghost use Rattle.wh_text.specs.Problems.{problem};
ghost use Rattle.wh_data.specs.Limits.{most_problem_bytes};

use crate::rank_line::read_rank;
use std::alloc::Global;
use std::marker::Model;
use wh_data::{Command, MOST_GIVEN_MOVES, MOST_PROBLEM_BYTES, Problem};
use wh_fields::{read_moves, read_tuple};
use wh_lines::{Kept, Next, ReadError, Reader};
use wh_moves::Move;
use wh_words::{List, Rank, Tuple};

/// The tuple of a line. BadLine comes where its keyword is another one.
fn read_tuple_line(alloc: Global, rank: Rank, kept: &Kept) -> Result<Tuple, ReadError>
    ensures { Gives (λ t. t.plain) result (spec.tuple_line rank kept.now) }
{
    let line = kept.number() as u64;
    if !kept.has_keyword(b"tuple") {
        return Err(ReadError::BadLine { line });
    }
    read_tuple(alloc, rank, line, kept.fields())
}

/// The moves of a line. TooManyMoves comes where there are more than 1,024, and then BadMove where a field tells none.
fn given_moves(alloc: Global, rank: Rank, kept: &Kept) -> Result<List<Move>, ReadError>
    ensures { Gives (λ ms. ms) result (spec.given_moves rank kept.now) }
{
    let line = kept.number() as u64;
    let fields = kept.fields();
    if fields.len() > MOST_GIVEN_MOVES {
        return Err(ReadError::TooManyMoves {
            line,
            count: fields.len() as u64,
        });
    }
    read_moves(alloc, rank, line, fields)
}

/// The moves of a line, which is the last. BadLine comes where another one follows.
#[tactic(auto, using(crate::proofs::StatedLines::last_is))]
fn last_moves(
    alloc: Global,
    rank: Rank,
    kept: &Kept,
    reader: &mut Reader,
) -> Result<List<Move>, ReadError>
    ensures { Gives (λ ms. ms) result (spec.last_moves rank kept.now reader.old.rest) }
{
    let moves = given_moves(alloc, rank, kept)?;
    reader.at_end()?;
    Ok(moves)
}

/// What the lines after that of the rank state: tuples, and the moves of the last line, or the refusal of a text that lacks
/// them.
#[derive(Drop)]
struct Stated {
    tuples: Vec<Tuple>,
    moves: Result<List<Move>, ReadError>,
}

impl Model for Stated {
    ghost use Rattle.std.specs.Prelude.{map};
    ghost use Rattle.wh_text.specs.Problems as spec;

    ghost Value = { spec.Stated };

    ghost view = { λ s. record { tuples = map (λ t. t.plain) s.tuples.items; moves = s.moves } };
}

/// Whether a line has moves, where these are taken.
fn has_moves(takes_moves: bool, kept: &Kept) -> bool
    ensures { result ≡ spec.has_moves takes_moves kept.now }
{
    takes_moves && kept.has_keyword(b"moves")
}

/// What all lines that are left state. The last may have moves where the command takes them.
fn read_stated(
    alloc: Global,
    takes_moves: bool,
    rank: Rank,
    reader: &mut Reader,
) -> Result<Stated, ReadError>
    ensures { Gives (λ s. s) result (spec.stated takes_moves rank reader.old.rest) }
{
    let mut tuples = Vec::new(alloc);
    'lines: loop {
        let next = reader.next_line()?;
        match next {
            Next::Line(kept) => {
                if has_moves(takes_moves, &kept) {
                    let moves = last_moves(alloc, rank, &kept, reader)?;
                    return Ok(Stated {
                        tuples,
                        moves: Ok(moves),
                    });
                }
                let tuple = read_tuple_line(alloc, rank, &kept)?;
                tuples.push(tuple)?;
            }
            Next::End(place) => {
                return Ok(Stated {
                    tuples,
                    moves: Err(ReadError::BadLine { line: place as u64 }),
                });
            }
        }
    }
}

/// Whether the problems of a command have moves.
fn takes_moves(command: Command) -> bool
    ensures { result ≡ spec.takes_moves command }
{
    match command {
        Command::Reduce => false,
        Command::Decide => false,
        Command::Straighten => true,
        Command::Stabiliser => false,
    }
}

/// The one tuple of a problem that has one, or TupleCount.
fn one_tuple(tuples: Vec<Tuple>) -> Result<Tuple, ReadError>
    ensures { Gives (λ t. t.plain) result (spec.one_tuple (map (λ t. t.plain) tuples.items)) }
{
    let found = tuples.len();
    let mut tuples = tuples;
    match tuples.pop() {
        Some(tuple) if found == 1 => Ok(tuple),
        _ => Err(ReadError::TupleCount {
            expected: 1,
            found: found as u64,
        }),
    }
}

/// The two tuples of a problem that has two, or TupleCount.
fn two_tuples(tuples: Vec<Tuple>) -> Result<(Tuple, Tuple), ReadError>
    ensures { Gives (λ p. (p.0.plain, p.1.plain)) result (spec.two_tuples (map (λ t. t.plain) tuples.items)) }
{
    let found = tuples.len();
    if found != 2 {
        return Err(ReadError::TupleCount {
            expected: 2,
            found: found as u64,
        });
    }
    let mut tuples = tuples;
    let second = tuples.pop().unwrap();
    let first = tuples.pop().unwrap();
    Ok((first, second))
}

/// The problem of two tuples, or SizeMismatch.
fn decide_both(first: Tuple, second: Tuple) -> Result<Problem, ReadError>
    ensures { Gives problem_of result (spec.decide_both first.plain second.plain) }
{
    if first.count() != second.count() {
        let refusal = ReadError::SizeMismatch {
            first: first.count() as u64,
            second: second.count() as u64,
        };
        drop(first);
        drop(second);
        return Err(refusal);
    }
    Ok(Problem::Decide { first, second })
}

/// The problem of a tuple and moves, or the refusal of a text that lacks them.
fn straighten_moves(
    tuple: Tuple,
    moves: Result<List<Move>, ReadError>,
) -> Result<Problem, ReadError>
    ensures { Gives problem_of result (spec.straighten_by tuple.plain moves) }
{
    match moves {
        Ok(moves) => Ok(Problem::Straighten { tuple, moves }),
        Err(refusal) => {
            drop(tuple);
            Err(refusal)
        }
    }
}

/// The problem that a command has with what is stated, or the first refusal of the whole.
fn problem_with(command: Command, stated: Stated) -> Result<Problem, ReadError>
    ensures { Gives problem_of result (spec.problem_with command stated) }
{
    let Stated { tuples, moves } = stated;
    match command {
        Command::Reduce => Ok(Problem::Reduce {
            tuple: one_tuple(tuples)?,
        }),
        Command::Decide => {
            let (first, second) = two_tuples(tuples)?;
            decide_both(first, second)
        }
        Command::Straighten => straighten_moves(one_tuple(tuples)?, moves),
        Command::Stabiliser => Ok(Problem::Stabiliser {
            tuple: one_tuple(tuples)?,
        }),
    }
}

/// The problem that the lines of a text state.
#[tactic(auto, unfolding(crate::specs::Problems::problem_after))]
fn problem_after(alloc: Global, command: Command, reader: &mut Reader) -> Result<Problem, ReadError>
    ensures { Gives problem_of result (spec.problem_after command reader.old) }
{
    let rank = read_rank(command, reader)?;
    let stated = read_stated(alloc, takes_moves(command), rank, reader)?;
    problem_with(command, stated)
}

/// The problem of `command` that a text states. A refusal is the first that is met: the size of the text comes first,
/// then its lines in order, and then the text as a whole. In a line the leftmost bad byte comes first. It leaves nothing.
/// The time is linear in the bytes. OutOfMemory comes where there is no memory for what is read.
#[tactic(auto, unfolding(crate::specs::Problems::problem))]
pub fn read_problem(alloc: Global, command: Command, bytes: &[u8]) -> Result<Problem, ReadError>
    ensures read { IfOk result (λ p. problem command bytes.now ≡ Ok (problem_of p)) }
    ensures refused { IfErr result (Refuses (problem command bytes.now)) }
    ensures too_long { most_problem_bytes < length bytes.now → result ≡ Err (InputTooLong most_problem_bytes) }
{
    if bytes.len() > MOST_PROBLEM_BYTES {
        return Err(ReadError::InputTooLong {
            limit: MOST_PROBLEM_BYTES as u64,
        });
    }
    problem_after(alloc, command, &mut Reader::new(alloc, bytes))
}
