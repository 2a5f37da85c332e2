//! Reading of verdicts.
ghost use Rattle.std.specs.Prelude.{◌≡◌, IfOk, ◌++◌};
ghost use Rattle.wh_lines.specs.Readings.{Gives};
ghost use Rattle.wh_lines.specs.LineReadings.{Reads};
ghost use Rattle.wh_text.specs.Certificates as spec;
ghost use Rattle.wh_data.specs.AnswerData.{plains};
ghost use Rattle.wh_data.specs.AnswerData.VerdictData.{no_length, no_level};
ghost use Rattle.wh_text.specs.VerdictWords.{word_of};

use crate::answer_line::moves_after;
use crate::side_reading::{ReadSide, level_after, side_after};
use std::alloc::Global;
use std::marker::Model;
use wh_data::Verdict;
use wh_lines::{Field, ReadError, Reader, canonical_number};
use wh_words::{Letter, List, OutOfMemory, Rank, Tuple};

/// A verdict, and the letters and values that its `flow` lines name.
#[derive(Drop)]
pub struct ReadVerdict {
    pub verdict: Verdict,
    pub heads: Vec<(Letter, u32)>,
}

impl Model for ReadVerdict {
    ghost use Rattle.wh_data.specs.AnswerData.{verdict_of};
    ghost use Rattle.wh_text.specs.Certificates as spec;

    ghost Value = { spec.VerdictRead };

    ghost view = { λ v. record { verdict = verdict_of v.verdict; heads = v.heads.items } };
}

/// What a `verdict` line tells of a certificate.
#[derive(Clone, Copy)]
enum Word {
    Yes,
    NoLength,
    NoLevel,
}

/// Whether two fields tell a bound: a word and a number.
pub fn is_bound(word: &Field, number: &Field) -> bool
    ensures { result ≡ spec.is_bound word.now.bytes number.now.bytes }
{
    (word.is(b"length") || word.is(b"level")) && canonical_number(number.bytes()).is_some()
}

/// The verdict that the fields of a line tell. NoCertificate comes where it is an undecided one, BadLine where it is none.
#[tactic(auto, unfolding(crate::specs::Certificates::verdict_in))]
fn read_word(line: u64, fields: &[Field]) -> Result<Word, ReadError>
    ensures { Gives word_of result (spec.verdict_in line fields.now) }
{
    match fields {
        [yes] if yes.is(b"yes") => Ok(Word::Yes),
        [first, second] if first.is(b"no") && second.is(b"length") => Ok(Word::NoLength),
        [first, second] if first.is(b"no") && second.is(b"level") => Ok(Word::NoLevel),
        [first, word, number] if first.is(b"undecided") && is_bound(word, number) => {
            Err(ReadError::NoCertificate { line })
        }
        _ => Err(ReadError::BadLine { line }),
    }
}

/// What the lines of two sides name.
fn joined(
    first: Vec<(Letter, u32)>,
    second: Vec<(Letter, u32)>,
) -> Result<Vec<(Letter, u32)>, OutOfMemory>
    ensures { IfOk result (λ v. v.items ≡ first.items ++ second.items) }
{
    let mut heads = first;
    heads.extend_from_slice(&second)?;
    Ok(heads)
}

/// The yes that the next line tells.
fn yes_after(alloc: Global, rank: Rank, reader: &mut Reader) -> Result<ReadVerdict, ReadError>
    ensures { Reads (λ v. v) result reader.new (spec.yes_after rank reader.old) }
{
    let moves = moves_after(alloc, b"moves", rank, reader)?;
    Ok(ReadVerdict {
        verdict: Verdict::Yes(moves),
        heads: Vec::new(alloc),
    })
}

/// The two sides that the next lines tell.
#[tactic(auto, unfolding(crate::specs::Certificates::sides_after))]
fn sides_after(
    alloc: Global,
    rank: Rank,
    count: usize,
    reader: &mut Reader,
) -> Result<(ReadSide, ReadSide), ReadError>
    ensures { Reads (λ s. s) result reader.new (spec.sides_after rank count reader.old) }
{
    let first = side_after(alloc, rank, count, reader)?;
    match side_after(alloc, rank, count, reader) {
        Ok(second) => Ok((first, second)),
        Err(error) => {
            drop(first);
            Err(error)
        }
    }
}

/// The no of two sides.
fn no_length(first: ReadSide, second: ReadSide) -> Result<ReadVerdict, OutOfMemory>
    ensures { IfOk result (λ v. v ≡ record { verdict = no_length first.side second.side; heads = first.heads ++ second.heads }) }
{
    let ReadSide { side, heads } = first;
    match joined(heads, second.heads) {
        Ok(heads) => Ok(ReadVerdict {
            verdict: Verdict::NoLength(side, second.side),
            heads,
        }),
        Err(error) => {
            drop(side);
            drop(second.side);
            Err(error)
        }
    }
}

/// The no by lengths that the next lines tell.
fn no_length_after(
    alloc: Global,
    rank: Rank,
    count: usize,
    reader: &mut Reader,
) -> Result<ReadVerdict, ReadError>
    ensures { Reads (λ v. v) result reader.new (spec.no_length_after rank count reader.old) }
{
    let (first, second) = sides_after(alloc, rank, count, reader)?;
    Ok(no_length(first, second)?)
}

/// The no of two sides and a level.
fn no_level(
    first: ReadSide,
    second: ReadSide,
    level: List<Tuple>,
) -> Result<ReadVerdict, OutOfMemory>
    ensures { IfOk result (λ v. v ≡ record { verdict = no_level first.side second.side (plains level); heads = first.heads ++ second.heads }) }
{
    let ReadSide { side, heads } = first;
    match joined(heads, second.heads) {
        Ok(heads) => Ok(ReadVerdict {
            verdict: Verdict::NoLevel(side, second.side, level),
            heads,
        }),
        Err(error) => {
            drop(side);
            drop(second.side);
            drop(level);
            Err(error)
        }
    }
}

/// The no by a level that the next lines tell.
fn no_level_after(
    alloc: Global,
    rank: Rank,
    count: usize,
    reader: &mut Reader,
) -> Result<ReadVerdict, ReadError>
    ensures { Reads (λ v. v) result reader.new (spec.no_level_after rank count reader.old) }
{
    let (first, second) = sides_after(alloc, rank, count, reader)?;
    match level_after(alloc, rank, count, reader) {
        Ok(level) => Ok(no_level(first, second, level)?),
        Err(error) => {
            drop(first);
            drop(second);
            Err(error)
        }
    }
}

/// The verdict of the lines after a verdict line that tells this.
fn verdict_with(
    alloc: Global,
    rank: Rank,
    count: usize,
    word: Word,
    reader: &mut Reader,
) -> Result<ReadVerdict, ReadError>
    ensures { Reads (λ v. v) result reader.new (spec.verdict_with rank count (word_of word) reader.old) }
{
    match word {
        Word::Yes => yes_after(alloc, rank, reader),
        Word::NoLength => no_length_after(alloc, rank, count, reader),
        Word::NoLevel => no_level_after(alloc, rank, count, reader),
    }
}

/// The verdict that the next lines tell.
#[tactic(auto, unfolding(crate::specs::Certificates::verdict_after))]
pub fn verdict_after(
    alloc: Global,
    rank: Rank,
    count: usize,
    reader: &mut Reader,
) -> Result<ReadVerdict, ReadError>
    ensures { Reads (λ v. v) result reader.new (spec.verdict_after rank count reader.old) }
{
    let kept = reader.line_after(b"verdict")?;
    let word = read_word(kept.number() as u64, kept.fields())?;
    verdict_with(alloc, rank, count, word, reader)
}
