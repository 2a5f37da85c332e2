//! Printing of refusals.
ghost use Rattle.std.specs.Prelude.{◌≡◌, ◌≢◌, ◌++◌, IfOk, OnOk, codes, decimal};
ghost use Rattle.wh_lines.specs.declared.read_error.ReadError.TheVariants as errors;
ghost use Rattle.wh_text.specs.RefusalTexts.{cause_text, refusal_text, refused_words_text, too_long_text};

use std::alloc::Global;
use wh_lines::{ReadError, print_number};
use wh_words::OutOfMemory;

/// The line for refused words of the command line.
pub fn refused_words() -> &'static [u8]
    ensures { result.now ≡ refused_words_text }
{
    b"refused words\n"
}

/// Writes a text and a number.
fn push_one(out: &mut Vec<u8>, text: &[u8], n: u64) -> Result<(), OutOfMemory>
    ensures { OnOk result (out.new.items ≡ out.old.items ++ (text.now ++ decimal n)) }
{
    out.extend_from_slice(text)?;
    print_number(out, n)
}

/// Writes a text and a number, and another text and another number.
fn push_two(
    out: &mut Vec<u8>,
    text: &[u8],
    n: u64,
    between: &[u8],
    m: u64,
) -> Result<(), OutOfMemory>
    ensures { OnOk result (out.new.items ≡ out.old.items ++ (text.now ++ decimal n ++ between.now ++ decimal m)) }
{
    push_one(out, text, n)?;
    push_one(out, between, m)
}

/// The line for a list of moves on whose way a tuple has too many letters: the number of the move after which the first
/// such tuple stands, counted from 1, and how many letters it has. OutOfMemory comes where there is no memory for the line.
#[tactic(auto, unfolding(crate::specs::RefusalTexts::too_long_text))]
pub fn print_too_long(alloc: Global, place: u64, length: u64) -> Result<Vec<u8>, OutOfMemory>
    ensures { IfOk result (λ v. v.items ≡ too_long_text place length) }
{
    let mut out = Vec::new(alloc);
    push_two(
        &mut out,
        b"refused too-long move ",
        place,
        b" length ",
        length,
    )?;
    out.push(b'\n')?;
    Ok(out)
}

/// Writes what the line of a refusal tells after its first word.
fn push_cause(out: &mut Vec<u8>, error: ReadError) -> Result<(), OutOfMemory>
    ensures { OnOk result (out.new.items ≡ out.old.items ++ cause_text error) }
{
    match error {
        ReadError::InputTooLong { limit } => push_one(out, b"input-too-long ", limit),
        ReadError::BadByte { line, column } => {
            push_two(out, b"bad-byte line ", line, b" column ", column)
        }
        ReadError::NoRank { line } => push_one(out, b"no-rank line ", line),
        ReadError::RankRange { line } => push_one(out, b"rank-range line ", line),
        ReadError::LevelRank { rank } => push_one(out, b"level-rank ", rank),
        ReadError::BadLine { line } => push_one(out, b"bad-line line ", line),
        ReadError::TooManyWords { line, count } => {
            push_two(out, b"too-many-words line ", line, b" count ", count)
        }
        ReadError::BadLetter { line, column } => {
            push_two(out, b"bad-letter line ", line, b" column ", column)
        }
        ReadError::LongTuple { line, length } => {
            push_two(out, b"long-tuple line ", line, b" length ", length)
        }
        ReadError::TooManyMoves { line, count } => {
            push_two(out, b"too-many-moves line ", line, b" count ", count)
        }
        ReadError::BadMove { line, column } => {
            push_two(out, b"bad-move line ", line, b" column ", column)
        }
        ReadError::TupleCount { expected, found } => {
            push_two(out, b"tuple-count ", expected, b" ", found)
        }
        ReadError::SizeMismatch { first, second } => {
            push_two(out, b"size-mismatch ", first, b" ", second)
        }
        ReadError::NoCertificate { line } => push_one(out, b"no-certificate line ", line),
        ReadError::OutOfMemory => Ok(()),
    }
}

/// The line of a refusal: what it is, and its place. The error isn't want of memory, which is no refusal. OutOfMemory
/// comes where there is no memory for the line.
#[tactic(auto, unfolding(crate::specs::RefusalTexts::refusal_text))]
pub fn print_refusal(alloc: Global, error: &ReadError) -> Result<Vec<u8>, OutOfMemory>
    requires { error.now ≢ errors.OutOfMemory }
    ensures { IfOk result (λ v. v.items ≡ refusal_text error.now) }
{
    let mut out = Vec::new(alloc);
    out.extend_from_slice(b"refused ")?;
    push_cause(&mut out, *error)?;
    out.push(b'\n')?;
    Ok(out)
}
