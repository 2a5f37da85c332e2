//! Why a text isn't read.
ghost use Rattle.std.specs.Prelude.{◌≡◌};
ghost use Rattle.wh_lines.specs.declared.read_error.ReadError.TheVariants as errors;

use std::alloc::{AllocError, AllocFailed};
use std::fmt::{self, Debug, Display, Formatter, Write};

/// The first rule that a text breaks, with its place, or want of memory. Lines, and columns in a line, are counted from
/// 1. Each variant but the last is a refusal.
#[derive(Clone, Copy, PartialEq, Eq)]
pub enum ReadError {
    /// The input has more bytes than `limit`.
    InputTooLong { limit: u64 },
    /// A byte of a line isn't 32 to 126; the leftmost one.
    BadByte { line: u64, column: u64 },
    /// The first kept line isn't a rank line, or there is no kept line; then `line` is the place past the end.
    NoRank { line: u64 },
    /// The rank line hasn't exactly one further field, or that isn't a number from 1 to 26.
    RankRange { line: u64 },
    /// The command doesn't take problems of this rank.
    LevelRank { rank: u64 },
    /// The keyword of a line may not stand there.
    BadLine { line: u64 },
    /// A `tuple` line has more than 64 words.
    TooManyWords { line: u64, count: u64 },
    /// A byte of a word is no letter of the rank; the leftmost one.
    BadLetter { line: u64, column: u64 },
    /// A `tuple` line has more than 4,096 letters as they are written.
    LongTuple { line: u64, length: u64 },
    /// A `moves` line has more than 1,024 moves.
    TooManyMoves { line: u64, count: u64 },
    /// A field is no move of the rank; the leftmost one, and `column` is that of its first byte.
    BadMove { line: u64, column: u64 },
    /// The text has another number of `tuple` lines than the command takes.
    TupleCount { expected: u64, found: u64 },
    /// The two tuples have different numbers of words: these.
    SizeMismatch { first: u64, second: u64 },
    /// The text is an answer of a kind that has nothing to check, as this line tells.
    NoCertificate { line: u64 },
    /// There was no memory.
    OutOfMemory,
}

impl From<AllocError> for ReadError {
    ghost from_gives = { λ _ e. e ≡ errors.OutOfMemory };

    fn from(_: AllocError) -> ReadError {
        ReadError::OutOfMemory
    }
}

/// A value that found no room is let go.
impl<T: Drop> From<AllocFailed<T>> for ReadError {
    ghost from_gives = { λ _ e. e ≡ errors.OutOfMemory };

    fn from(_: AllocFailed<T>) -> ReadError {
        ReadError::OutOfMemory
    }
}

/// What is told of an error: texts, and the numbers beside them.
#[derive(Clone, Copy)]
enum Message {
    AtLine(u64, &'static str),
    AtByte(u64, u64, &'static str),
    TooMany(u64, u64, &'static str),
    Number(&'static str, u64, &'static str),
    Unequal(&'static str, u64, &'static str, u64),
    Text(&'static str),
}

impl ReadError {
    /// What is told of an error.
    fn message(self) -> Message {
        match self {
            ReadError::InputTooLong { limit } => {
                Message::Number("the input has more than ", limit, " bytes")
            }
            ReadError::BadByte { line, column } => {
                Message::AtByte(line, column, "a byte that may not stand in a text")
            }
            ReadError::NoRank { line } => Message::AtLine(line, "there is no rank"),
            ReadError::RankRange { line } => {
                Message::AtLine(line, "the rank is not a number from 1 to 26")
            }
            ReadError::LevelRank { rank } => {
                Message::Number("the rank ", rank, " is too large for the command")
            }
            ReadError::BadLine { line } => Message::AtLine(line, "a line that may not stand here"),
            ReadError::TooManyWords { line, count } => Message::TooMany(line, count, "words"),
            ReadError::BadLetter { line, column } => {
                Message::AtByte(line, column, "a byte that is no letter of the rank")
            }
            ReadError::LongTuple { line, length } => Message::TooMany(line, length, "letters"),
            ReadError::TooManyMoves { line, count } => Message::TooMany(line, count, "moves"),
            ReadError::BadMove { line, column } => {
                Message::AtByte(line, column, "a field that is no move of the rank")
            }
            ReadError::TupleCount { expected, found } => {
                Message::Unequal("tuples expected:", expected, "found:", found)
            }
            ReadError::SizeMismatch { first, second } => {
                Message::Unequal("words of the first tuple:", first, "of the second:", second)
            }
            ReadError::NoCertificate { line } => {
                Message::AtLine(line, "an answer that is no certificate")
            }
            ReadError::OutOfMemory => Message::Text("out of memory"),
        }
    }
}

/// Writes what is wrong with a line.
fn at_line<W: Write>(f: &mut Formatter<W>, line: u64, what: &str) -> fmt::Result {
    write!(f, "line {line}: {what}")
}

/// Writes what is wrong with a byte.
fn at_byte<W: Write>(f: &mut Formatter<W>, line: u64, column: u64, what: &str) -> fmt::Result {
    write!(f, "line {line}, column {column}: {what}")
}

/// Writes how many things of a line are too many.
fn too_many<W: Write>(f: &mut Formatter<W>, line: u64, count: u64, what: &str) -> fmt::Result {
    write!(f, "line {line}: {count} {what} are too many")
}

/// Writes a number between two texts.
fn number<W: Write>(f: &mut Formatter<W>, before: &str, n: u64, after: &str) -> fmt::Result {
    write!(f, "{before}{n}{after}")
}

/// Writes two numbers that don't fit, each behind a text.
fn unequal<W: Write>(f: &mut Formatter<W>, what: &str, n: u64, other: &str, m: u64) -> fmt::Result {
    write!(f, "{what} {n}, {other} {m}")
}

// Both by hand: what a derived impl writes for all variants at once takes the checker long.
impl Display for ReadError {
    fn fmt<W: Write>(&self, f: &mut Formatter<W>) -> fmt::Result {
        match self.message() {
            Message::AtLine(line, what) => at_line(f, line, what),
            Message::AtByte(line, column, what) => at_byte(f, line, column, what),
            Message::TooMany(line, count, what) => too_many(f, line, count, what),
            Message::Number(before, n, after) => number(f, before, n, after),
            Message::Unequal(what, n, other, m) => unequal(f, what, n, other, m),
            Message::Text(text) => f.write_str(text),
        }
    }
}

impl Debug for ReadError {
    fn fmt<W: Write>(&self, f: &mut Formatter<W>) -> fmt::Result {
        Display::fmt(self, f)
    }
}

impl std::error::Error for ReadError {}
