//! Reading a text, one line that isn't skipped after another.
ghost use Rattle.std.specs.Prelude.{◌≡◌, ◌<◌, ◌+◌, ◌^◌, cond, length, Ok, Err};
ghost use Rattle.wh_lines.specs.declared.read_error.ReadError.TheVariants.{BadLine};
ghost use Rattle.wh_lines.specs.Lines.{are, lines};
ghost use Rattle.wh_lines.specs.KeptLines.{rest as left};
ghost use Rattle.wh_lines.specs.KeptLines.Rest.{line as a_line};
ghost use Rattle.wh_lines.specs.Readings.{Gives};
ghost use Rattle.wh_lines.specs.LineReadings as spec;
ghost use Rattle.wh_lines.specs.LineReadings.{Reads};

use crate::kept_line::{Kept, first_kept};
use crate::read_error::ReadError;
use std::alloc::Global;
use std::marker::Model;

/// Reads a text from its first line to its end, and notes the number of each line that it takes.
#[derive(Drop)]
pub struct Reader<'a> {
    alloc: Global,
    // The number of the line that `rest` begins with.
    line: u32,
    rest: &'a [u8],
    taken: Vec<u32>,
}

impl<'a> Model for Reader<'a> {
    ghost use Rattle.std.specs.Prelude.{◌<◌, ◌+◌, ◌^◌, length};
    ghost use Rattle.wh_lines.specs.Lines.{lines};
    ghost use Rattle.wh_lines.specs.KeptLines.{rest as left};
    ghost use Rattle.wh_lines.specs.LineReadings.{Reading};
    ghost use Rattle.wh_lines.specs.ReadingCodes.{reading_code};

    ghost Value = { Reading };

    ghost coded = { reading_code };

    ghost view = { λ r. record { taken = r.taken.items; rest = left r.line (lines r.rest.now) } };

    ghost invariant = { λ r. r.line + length r.rest.now < 2 ^ 32 };
}

/// What comes next in a text: a line that isn't skipped, or the end, with the place past it.
#[derive(Drop)]
pub enum Next<'a> {
    Line(Kept<'a>),
    End(u32),
}

/// A line, where its first field is this keyword, or else BadLine.
fn with_keyword<'a>(keyword: &[u8], kept: Kept<'a>) -> Result<Kept<'a>, ReadError>
    ensures { Gives (λ k. k) result (cond (are kept.entry.keyword keyword.now) (Ok kept.entry) (Err (BadLine kept.entry.number))) }
{
    if !kept.has_keyword(keyword) {
        return Err(ReadError::BadLine {
            line: kept.number() as u64,
        });
    }
    Ok(kept)
}

impl<'a> Reader<'a> {
    /// Begins to read `bytes`.
    pub fn new(alloc: Global, bytes: &'a [u8]) -> Reader<'a>
        requires { length bytes.now + 1 < 2 ^ 32 }
        ensures { result ≡ spec.start bytes.now }
    {
        Reader {
            alloc,
            line: 1,
            rest: bytes,
            taken: Vec::new(alloc),
        }
    }

    /// Takes a line, behind which `rest` is left, which begins with line number `line`.
    fn take(&mut self, kept: Kept<'a>, line: u32, rest: &'a [u8]) -> Result<Next<'a>, ReadError>
        requires { line + length rest.now < 2 ^ 32 }
        ensures { Reads (λ n. n) result self.new (spec.next_of self.old.taken (a_line kept.entry (left line (lines rest.now)))) }
    {
        self.taken.push(kept.number())?;
        self.line = line;
        self.rest = rest;
        Ok(Next::Line(kept))
    }

    /// Takes the next line that isn't skipped, where there is one. BadByte comes where a byte stands before its end that
    /// may not. OutOfMemory comes where there is no memory for its fields.
    #[tactic(auto, using(crate::proofs::NextLines::next_fails, crate::proofs::NextLines::next_found, crate::proofs::NextLines::next_ended))]
    pub fn next_line(&mut self) -> Result<Next<'a>, ReadError>
        ensures { Reads (λ n. n) result self.new (spec.next self.old) }
    {
        let (kept, line, rest) = first_kept(self.alloc, self.line, self.rest)?;
        match kept {
            Some(kept) => self.take(kept, line, rest),
            None => Ok(Next::End(line)),
        }
    }

    /// Takes the next line that isn't skipped, which has this keyword. BadLine comes where another line stands there, and
    /// at the place past the end where none does.
    #[tactic(auto, using(crate::proofs::NextLines::line_fails, crate::proofs::NextLines::line_found, crate::proofs::NextLines::line_missing))]
    pub fn line_after(&mut self, keyword: &[u8]) -> Result<Kept<'a>, ReadError>
        ensures { Reads (λ k. k) result self.new (spec.line_after keyword.now self.old) }
    {
        match self.next_line()? {
            Next::Line(kept) => with_keyword(keyword, kept),
            Next::End(place) => Err(ReadError::BadLine { line: place as u64 }),
        }
    }

    /// Comes to the end. BadLine comes where a line isn't skipped.
    #[tactic(auto, using(crate::proofs::NextLines::end_fails, crate::proofs::NextLines::end_missed, crate::proofs::NextLines::end_found))]
    pub fn at_end(&mut self) -> Result<(), ReadError>
        ensures { Reads (λ u. u) result self.new (spec.end_after self.old) }
    {
        match self.next_line()? {
            Next::Line(kept) => Err(ReadError::BadLine {
                line: kept.number() as u64,
            }),
            Next::End(_) => Ok(()),
        }
    }

    /// The numbers of the lines that were taken, first to last.
    pub fn into_taken(self) -> Vec<u32>
        ensures { result.items ≡ self.entry.taken }
    {
        self.taken
    }
}
