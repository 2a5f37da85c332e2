//! What a `tuple` line tells.
ghost use Rattle.std.specs.Prelude.{◌≡◌, ◌≤◌, ◌<◌, ◌+◌, ◌^◌, length, map, IfOk};
ghost use Rattle.std.specs.List.{All, sum_by};
ghost use Rattle.wh_words.specs.Limits.{most_rank, most_words};
ghost use Rattle.wh_words.specs.Words.{free_reduction, IsOfRank};
ghost use Rattle.wh_lines.specs.Scans.{bytes_within};
ghost use Rattle.wh_lines.specs.Readings.{Gives};
ghost use Rattle.wh_fields.specs.Words as spelling;
ghost use Rattle.wh_fields.specs.Words.{letters_at};
ghost use Rattle.wh_fields.specs.TupleFields as spec;
ghost use Rattle.wh_fields.specs.TupleFields.{words_at, tuple_at};

use crate::letter::letter_of;
use std::alloc::Global;
use wh_lines::{Field, ReadError};
use wh_words::{Letter, List, MOST_LETTERS, MOST_WORDS, OutOfMemory, Rank, Tuple, Word};

/// The letters of a field from `column` on. Where a byte is no letter of the rank, BadLetter names the leftmost.
#[tactic(auto, using(crate::proofs::WordReadings::letters_end))]
fn letters(
    alloc: Global,
    n: u8,
    line: u64,
    column: usize,
    bytes: &[u8],
) -> Result<List<Letter>, ReadError>
    requires rank { n ≤ most_rank }
    requires fits { column + length bytes.now < 2 ^ 64 }
    ensures { Gives (λ w. w) result (letters_at n line column bytes.now) }
{
    let mut out = Vec::new(alloc);
    let mut at = column;
    for byte in bytes {
        match letter_of(n, *byte) {
            Some(x) => out.push(x)?,
            None => {
                return Err(ReadError::BadLetter {
                    line,
                    column: at as u64,
                });
            }
        }
        at += 1;
    }
    Ok(List::of(out))
}

/// The word of a field, as it is written.
fn word(alloc: Global, n: u8, line: u64, field: &Field) -> Result<List<Letter>, ReadError>
    requires { n ≤ most_rank }
    ensures { Gives (λ w. w) result (spelling.word_at n line field.now) }
{
    if field.is(b"1") {
        return Ok(List::of(Vec::new(alloc)));
    }
    letters(alloc, n, line, field.column(), field.bytes())
}

/// The words of the fields, as they are written.
#[tactic(auto, using(wh_lines::proofs::ItemReadings::items_more, wh_lines::proofs::ItemReadings::items_fail, wh_lines::proofs::ItemReadings::items_end))]
fn words(alloc: Global, n: u8, line: u64, fields: &[Field]) -> Result<Vec<List<Letter>>, ReadError>
    requires { n ≤ most_rank }
    ensures { Gives (λ v. v.items) result (words_at n line fields.now) }
{
    let mut out = Vec::new(alloc);
    for field in fields {
        let w = word(alloc, n, line, field)?;
        out.push(w)?;
    }
    Ok(out)
}

/// The letters of all words.
fn total_length(words: &[List<Letter>]) -> usize
    requires { sum_by length words.now < 2 ^ 64 }
    ensures { result ≡ sum_by length words.now }
{
    let mut total = 0;
    for word in words {
        total += word.items().len();
    }
    total
}

/// The words, reduced.
fn reduced(alloc: Global, words: &[List<Letter>]) -> Result<Vec<Word>, OutOfMemory>
    ensures { IfOk result (λ v. v.items ≡ map free_reduction words.now) }
{
    let mut out = Vec::new(alloc);
    for word in words {
        out.push(Word::reduce(alloc, word.items())?)?;
    }
    Ok(out)
}

/// The tuple of words as they are written, or LongTuple.
fn short_tuple(
    alloc: Global,
    rank: Rank,
    line: u64,
    written: &[List<Letter>],
) -> Result<Tuple, ReadError>
    requires total { sum_by length written.now < 2 ^ 64 }
    requires few { length written.now ≤ most_words }
    requires of_rank { All (IsOfRank rank) written.now }
    ensures { Gives (λ t. t.plain) result (spec.short_tuple rank line written.now) }
{
    let length = total_length(written);
    if length > MOST_LETTERS as usize {
        return Err(ReadError::LongTuple {
            line,
            length: length as u64,
        });
    }
    let words = reduced(alloc, written)?;
    Ok(Tuple::of(alloc, rank, &words)?)
}

/// The tuple of the fields after the keyword, or TooManyWords, BadLetter or LongTuple, tried in this order.
#[tactic(auto, unfolding(crate::specs::TupleFields::tuple_at))]
pub fn read_tuple(
    alloc: Global,
    rank: Rank,
    line: u64,
    fields: &[Field],
) -> Result<Tuple, ReadError>
    requires { sum_by bytes_within fields.now < 2 ^ 64 }
    ensures { Gives (λ t. t.plain) result (tuple_at rank line fields.now) }
{
    if fields.len() > MOST_WORDS {
        return Err(ReadError::TooManyWords {
            line,
            count: fields.len() as u64,
        });
    }
    let written = words(alloc, rank.get(), line, fields)?;
    short_tuple(alloc, rank, line, &written)
}
