//! The lines of a text that aren't skipped.
ghost use Rattle.std.specs.Prelude.{◌≡◌, ◌≢◌, ◌<◌, ◌≤◌, ◌+◌, ◌^◌, [], None, length, IfOk};
ghost use Rattle.std.specs.List.{sum_by};
ghost use Rattle.wh_lines.specs.Lines.{are, lines};
ghost use Rattle.wh_lines.specs.Readings.{Gives};
ghost use Rattle.wh_lines.specs.KeptLines as spec;
ghost use Rattle.wh_lines.specs.KeptLines.{Rest, rest, kept_or};
ghost use Rattle.wh_lines.specs.KeptLines.Rest.{line as a_line};
ghost use Rattle.wh_lines.specs.Scans.{bytes_within, checked_fields, first_of};

use crate::field::{Field, split};
use crate::line::{after, bad_at, before, is_comment};
use crate::read_error::ReadError;
use std::alloc::Global;
use std::marker::Model;

/// A line that isn't skipped: its number, its first field, and the fields after that.
#[derive(Drop)]
pub struct Kept<'a> {
    number: u32,
    keyword: Field<'a>,
    fields: Vec<Field<'a>>,
}

impl<'a> Model for Kept<'a> {
    ghost use Rattle.std.specs.Prelude.{◌<◌, ◌^◌};
    ghost use Rattle.std.specs.List.{sum_by};
    ghost use Rattle.wh_lines.specs.Scans.{bytes_within};
    ghost use Rattle.wh_lines.specs.KeptLines as spec;

    ghost Value = { spec.Kept };

    ghost view = { λ k. record { number = k.number; keyword = k.keyword.bytes; fields = k.fields.items } };

    ghost invariant = { λ k. sum_by bytes_within k.fields.items < 2 ^ 64 };
}

impl<'a> Kept<'a> {
    /// Its number.
    pub fn number(&self) -> u32
        ensures { result ≡ self.now.number }
    {
        self.number
    }

    /// Whether its first field is this text.
    pub fn has_keyword(&self, keyword: &[u8]) -> bool
        ensures { result ≡ are self.now.keyword keyword.now }
    {
        self.keyword.is(keyword)
    }

    /// The fields after the first.
    pub fn fields(&self) -> &[Field<'a>]
        ensures same { result.now ≡ self.now.fields }
        ensures within { sum_by bytes_within self.now.fields < 2 ^ 64 }
    {
        &self.fields
    }
}

/// The fields of a line, first to last, which are no longer than the line; none where it is skipped. BadByte names the
/// leftmost byte that may not stand in it.
#[tactic(auto, unfolding(crate::specs::Scans::checked_fields), using(crate::proofs::FieldCuts::fields_total))]
fn line_fields(alloc: Global, line: u32, bytes: &[u8]) -> Result<Vec<Field>, ReadError>
    ensures fields { Gives (λ v. v.items) result (checked_fields line bytes.now) }
    ensures within { IfOk result (λ v. sum_by bytes_within v.items ≤ length bytes.now) }
{
    if let Some(column) = bad_at(bytes) {
        return Err(ReadError::BadByte {
            line: line as u64,
            column: column as u64,
        });
    }
    if is_comment(bytes) {
        return Ok(Vec::new(alloc));
    }
    Ok(split(alloc, bytes)?)
}

/// The kept line of fields, of which there is one at least.
fn kept_of(number: u32, fields: Vec<Field>) -> Kept
    requires some { fields.items ≢ [] }
    requires fits { sum_by bytes_within fields.items < 2 ^ 64 }
    ensures { (later : Rest) → kept_or number fields.entry.items later ≡ a_line result later }
{
    let mut fields = fields;
    let keyword = fields.remove(0);
    Kept {
        number,
        keyword,
        fields,
    }
}

/// The first of some lines that isn't skipped, where there is one, and the number and the bytes of what stands behind it.
/// The first line has this number. Where there is none, no bytes are left.
#[tactic(auto, using(crate::proofs::KeptSteps::kept_end))]
pub fn first_kept<'a>(
    alloc: Global,
    line: u32,
    bytes: &'a [u8],
) -> Result<(Option<Kept<'a>>, u32, &'a [u8]), ReadError>
    requires { line + length bytes.now < 2 ^ 32 }
    ensures first { Gives (λ r. (r.0, rest r.1 (lines r.2.now))) result (first_of (rest line (lines bytes.now))) }
    ensures fits { IfOk result (λ r. r.1 + length r.2.now < 2 ^ 32) }
    ensures end { IfOk result (λ r. r.0 ≡ None → r.2.now ≡ []) }
{
    let mut line = line;
    let mut bytes = bytes;
    'lines: while !bytes.is_empty() {
        let count = before(b'\n', bytes);
        let number = line;
        let fields = line_fields(alloc, number, &bytes[..count])?;
        bytes = after(bytes, count + 1);
        line += 1;
        if !fields.is_empty() {
            return Ok((Some(kept_of(number, fields)), line, bytes));
        }
    }
    Ok((None, line, bytes))
}
