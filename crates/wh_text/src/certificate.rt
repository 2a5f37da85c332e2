//! Reading of answers that can be checked.
ghost use Rattle.std.specs.Prelude.{◌≡◌, ◌<◌, ◌≤◌, length, IfOk, IfErr, Ok, Err};
ghost use Rattle.wh_lines.specs.declared.read_error.ReadError.TheVariants.{InputTooLong};
ghost use Rattle.wh_lines.specs.Readings.{◌>>=◌ as ◌then◌, Gives, Refuses, refused_as};
ghost use Rattle.wh_lines.specs.LineReadings.{Reads};
ghost use Rattle.wh_data.specs.AnswerData.{certificate_of};
ghost use Rattle.wh_text.specs.RankLines as ranks;
ghost use Rattle.wh_text.specs.Certificates as spec;
ghost use Rattle.wh_text.specs.Certificates.{certificate};
ghost use Rattle.wh_data.specs.Limits.{most_answer_bytes};
ghost use Rattle.wh_data.specs.Numberings.{IsNumbered};

use crate::answer_line::{bad_line, in_answer, like_after, tuple_after};
use crate::parts_reading::{ReadParts, parts_after};
use crate::rank_line::read_rank;
use crate::side_reading::{ReadSide, ended_after, level_after, side_after};
use crate::trace_reading::stab_trace_after;
use crate::verdict_reading::{ReadVerdict, verdict_after};
use std::alloc::Global;
use std::marker::Model;
use wh_data::{
    Answer, Command, MOST_ANSWER_BYTES, Numbered, StabVerdict, answer_version, is_unchecked_name,
};
use wh_lines::{Field, ReadError, Reader};
use wh_words::{Letter, List, Rank, Tuple};

/// An answer, the letters and values that its `flow` lines name, and the numbers of the vertices that its `tree` lines
/// name.
#[derive(Drop)]
struct ReadAnswer {
    answer: Answer,
    heads: Vec<(Letter, u32)>,
    tree_heads: Vec<u32>,
}

impl Model for ReadAnswer {
    ghost use Rattle.wh_data.specs.AnswerData.{answer_of};
    ghost use Rattle.wh_text.specs.Certificates as spec;

    ghost Value = { spec.AnswerRead };

    ghost view = { λ a. record { answer = answer_of a.answer; heads = a.heads.items; tree_heads = a.tree_heads.items } };
}

/// The command of the name in a heading. NoCertificate comes where answers of the command aren't checked, BadLine where
/// there is none.
fn command_at(line: u64, name: &Field) -> Result<Command, ReadError>
    ensures { Gives (λ c. c) result (spec.command_at line name.now.bytes) }
{
    match Command::named(name.bytes()) {
        Some(command) if command.is_checked() => Ok(command),
        Some(_) => Err(ReadError::NoCertificate { line }),
        None if is_unchecked_name(name.bytes()) => Err(ReadError::NoCertificate { line }),
        None => Err(ReadError::BadLine { line }),
    }
}

/// The command that the fields of a heading tell after `whitehead`: the version and a command.
fn read_heading(line: u64, fields: &[Field]) -> Result<Command, ReadError>
    ensures { Gives (λ c. c) result (spec.heading_in line fields.now) }
{
    match fields {
        [version, name] if version.is(answer_version()) => command_at(line, name),
        _ => Err(ReadError::BadLine { line }),
    }
}

/// The command of the next line, which is a heading.
#[tactic(auto, unfolding(crate::specs::Certificates::heading_after))]
fn heading_after(reader: &mut Reader) -> Result<Command, ReadError>
    ensures { Reads (λ c. c) result reader.new (spec.heading_after reader.old) }
{
    let kept = reader.line_after(b"whitehead")?;
    read_heading(kept.number() as u64, kept.fields())
}

/// The rank of the next line, which the command allows.
#[tactic(auto, using(wh_lines::proofs::Equations::refused_by))]
fn rank_after(command: Command, reader: &mut Reader) -> Result<Rank, ReadError>
    ensures { Reads (λ n. n) result reader.new (refused_as spec.in_answer (ranks.rank_after command reader.old)) }
{
    match read_rank(command, reader) {
        Ok(rank) => Ok(rank),
        Err(error) => Err(in_answer(error)),
    }
}

/// The answer of `reduce` that the next lines tell.
#[tactic(auto, unfolding(crate::specs::Certificates::reduced_after))]
fn reduced_after(alloc: Global, rank: Rank, reader: &mut Reader) -> Result<ReadAnswer, ReadError>
    ensures { Reads (λ a. a) result reader.new (spec.reduced_after rank reader.old) }
{
    let tuple = tuple_after(alloc, b"tuple", rank, reader)?;
    match side_after(alloc, rank, tuple.count(), reader) {
        Ok(ReadSide { side, heads }) => Ok(ReadAnswer {
            answer: Answer::Reduce { tuple, side },
            heads,
            tree_heads: Vec::new(alloc),
        }),
        Err(error) => {
            drop(tuple);
            Err(error)
        }
    }
}

/// The answer of two tuples, with the verdict of the next lines.
fn with_verdict(
    alloc: Global,
    rank: Rank,
    first: Tuple,
    second: Tuple,
    reader: &mut Reader,
) -> Result<ReadAnswer, ReadError>
    ensures { Reads (λ a. a) result reader.new (spec.with_verdict rank first.plain second.plain reader.old) }
{
    match verdict_after(alloc, rank, first.count(), reader) {
        Ok(ReadVerdict { verdict, heads }) => Ok(ReadAnswer {
            answer: Answer::Decide {
                first,
                second,
                verdict,
            },
            heads,
            tree_heads: Vec::new(alloc),
        }),
        Err(error) => {
            drop(first);
            drop(second);
            Err(error)
        }
    }
}

/// The answer of a first tuple, with the second of the next line, and the verdict.
fn with_second(
    alloc: Global,
    rank: Rank,
    first: Tuple,
    reader: &mut Reader,
) -> Result<ReadAnswer, ReadError>
    ensures { Reads (λ a. a) result reader.new (spec.with_second rank first.plain reader.old) }
{
    match like_after(alloc, b"second", rank, first.count(), reader) {
        Ok(second) => with_verdict(alloc, rank, first, second, reader),
        Err(error) => {
            drop(first);
            Err(error)
        }
    }
}

/// The answer of `decide` that the next lines tell.
#[tactic(auto, unfolding(crate::specs::Certificates::decided_after))]
fn decided_after(alloc: Global, rank: Rank, reader: &mut Reader) -> Result<ReadAnswer, ReadError>
    ensures { Reads (λ a. a) result reader.new (spec.decided_after rank reader.old) }
{
    let first = tuple_after(alloc, b"first", rank, reader)?;
    with_second(alloc, rank, first, reader)
}

/// What the next lines tell, which present the stabiliser of an end: its level, the tuples of which have so many words, and
/// what is found by it.
fn presented_after(
    alloc: Global,
    rank: Rank,
    count: usize,
    end: &Tuple,
    reader: &mut Reader,
) -> Result<ReadParts, ReadError>
    ensures { Reads (λ p. p) result reader.new (spec.level_after rank count reader.old then λ vs. spec.parts_after rank end.now.plain vs.0 vs.1) }
{
    let vertices = level_after(alloc, rank, count, reader)?;
    parts_after(alloc, rank, end, vertices, reader)
}

/// The answer of a tuple and its side, with the level and what presents the stabiliser of the next lines.
fn with_parts(
    alloc: Global,
    rank: Rank,
    tuple: Tuple,
    side: ReadSide,
    reader: &mut Reader,
) -> Result<ReadAnswer, ReadError>
    ensures { Reads (λ a. a) result reader.new (spec.with_parts rank tuple.plain side reader.old) }
{
    match presented_after(alloc, rank, tuple.count(), &side.side.end, reader) {
        Ok(ReadParts { parts, heads }) => Ok(ReadAnswer {
            answer: Answer::Stabiliser {
                tuple,
                verdict: StabVerdict::Done(side.side, parts),
            },
            heads: side.heads,
            tree_heads: heads,
        }),
        Err(error) => {
            drop(tuple);
            drop(side);
            Err(error)
        }
    }
}

/// The side of the next lines, with which a stabiliser begins that isn't undecided.
fn stab_side_after(
    alloc: Global,
    rank: Rank,
    count: usize,
    reader: &mut Reader,
) -> Result<ReadSide, ReadError>
    ensures { Reads (λ s. s) result reader.new (spec.stab_trace_after rank reader.old then λ ms. spec.ended_after rank count ms.0 ms.1) }
{
    let trace = stab_trace_after(alloc, rank, reader)?;
    ended_after(alloc, rank, count, trace, reader)
}

/// The answer of a tuple, with the side and all that follows it of the next lines.
fn with_stab(
    alloc: Global,
    rank: Rank,
    tuple: Tuple,
    reader: &mut Reader,
) -> Result<ReadAnswer, ReadError>
    ensures { Reads (λ a. a) result reader.new (spec.with_stab rank tuple.plain reader.old) }
{
    match stab_side_after(alloc, rank, tuple.count(), reader) {
        Ok(side) => with_parts(alloc, rank, tuple, side, reader),
        Err(error) => {
            drop(tuple);
            Err(error)
        }
    }
}

/// The answer of `stabiliser` that the next lines tell.
#[tactic(auto, unfolding(crate::specs::Certificates::stabilised_after))]
fn stabilised_after(alloc: Global, rank: Rank, reader: &mut Reader) -> Result<ReadAnswer, ReadError>
    ensures { Reads (λ a. a) result reader.new (spec.stabilised_after rank reader.old) }
{
    let tuple = tuple_after(alloc, b"tuple", rank, reader)?;
    with_stab(alloc, rank, tuple, reader)
}

/// The answer of a command that the next lines tell. Its answers can be checked, or else its heading isn't read.
fn answer_with(
    alloc: Global,
    command: Command,
    rank: Rank,
    reader: &mut Reader,
) -> Result<ReadAnswer, ReadError>
    ensures { Reads (λ a. a) result reader.new (spec.answer_with command rank reader.old) }
{
    match command {
        Command::Reduce => reduced_after(alloc, rank, reader),
        Command::Decide => decided_after(alloc, rank, reader),
        Command::Straighten => Err(ReadError::NoCertificate { line: 1 }),
        Command::Stabiliser => stabilised_after(alloc, rank, reader),
    }
}

/// Comes to the end of a text after its next line, which is `done`.
#[tactic(auto, unfolding(crate::specs::Certificates::done_after))]
fn done_after(reader: &mut Reader) -> Result<(), ReadError>
    ensures { Reads (λ u. u) result reader.new (spec.done_after reader.old) }
{
    let kept = reader.line_after(b"done")?;
    if !kept.fields().is_empty() {
        return Err(bad_line(&kept));
    }
    reader.at_end()
}

/// An answer, where the text ends behind it.
fn with_end(answer: ReadAnswer, reader: &mut Reader) -> Result<ReadAnswer, ReadError>
    ensures { Reads (λ a. a) result reader.new (spec.with_end answer reader.old) }
{
    match done_after(reader) {
        Ok(()) => Ok(answer),
        Err(error) => {
            drop(answer);
            Err(error)
        }
    }
}

/// The answer that a text tells, from its heading to its end.
#[tactic(auto, unfolding(crate::specs::Certificates::answer_after))]
fn answer_after(alloc: Global, reader: &mut Reader) -> Result<ReadAnswer, ReadError>
    ensures { Reads (λ a. a) result reader.new (spec.answer_after reader.old) }
{
    let command = heading_after(reader)?;
    let rank = rank_after(command, reader)?;
    let answer = answer_with(alloc, command, rank, reader)?;
    with_end(answer, reader)
}

/// The answer of `reduce`, `decide` or `stabiliser` that a text tells, whoever wrote it, with the numbers of its lines.
/// Lines that begin with `#` or are blank are skipped, and words needn't be reduced. A refusal is the first that is met:
/// the size of the text comes first, at most 67,108,864 bytes, and then its lines in order, where the leftmost bad byte
/// of a line comes first. LevelRank comes at the rank line of an answer of `decide`, where the rank is 7 to 26, and of
/// `stabiliser`, where it is 5 to 26. NoCertificate comes at the heading of another command and at an undecided verdict.
/// BadLine comes at any other line that doesn't continue an answer, or at the place past the end. A refusal leaves
/// nothing. The time is linear in the bytes. OutOfMemory comes where there is no memory for what is read.
#[tactic(auto, unfolding(crate::specs::Certificates::certificate))]
pub fn read_answer(alloc: Global, bytes: &[u8]) -> Result<Numbered, ReadError>
    ensures read { IfOk result (λ n. certificate bytes.now ≡ Ok (certificate_of n)) }
    ensures numbered { IfOk result (λ n. IsNumbered (certificate_of n)) }
    ensures refused { IfErr result (Refuses (certificate bytes.now)) }
    ensures too_long { most_answer_bytes < length bytes.now → result ≡ Err (InputTooLong most_answer_bytes) }
{
    if bytes.len() > MOST_ANSWER_BYTES {
        return Err(ReadError::InputTooLong {
            limit: MOST_ANSWER_BYTES as u64,
        });
    }
    let mut reader = Reader::new(alloc, bytes);
    let ReadAnswer {
        answer,
        heads,
        tree_heads,
    } = answer_after(alloc, &mut reader)?;
    Ok(Numbered {
        answer,
        lines: List::of(reader.into_taken()),
        flow_heads: List::of(heads),
        tree_heads: List::of(tree_heads),
    })
}
