//! Fields of a line.
ghost use Rattle.std.specs.Prelude.{◌≡◌, ◌≤◌, ◌<◌, ◌+◌, ◌^◌, ◌++◌, length, drop, IfOk};
ghost use Rattle.wh_lines.specs.Lines.{fields, are};

use crate::line::{after, before};
use std::alloc::{AllocError, Global};
use std::marker::Model;

/// A field of a line, and the column of its first byte.
#[derive(Drop)]
pub struct Field<'a> {
    column: usize,
    bytes: &'a [u8],
}

impl<'a> Model for Field<'a> {
    ghost use Rattle.std.specs.Prelude.{◌<◌, ◌+◌, ◌^◌, length};
    ghost use Rattle.wh_lines.specs.Lines as spec;

    ghost Value = { spec.Field };

    ghost view = { λ f. record { column = f.column; bytes = f.bytes.now } };

    ghost invariant = { λ f. f.column + length f.bytes.now < 2 ^ 64 };
}

impl<'a> Field<'a> {
    /// The column of its first byte.
    pub fn column(&self) -> usize
        ensures same { result ≡ self.now.column }
        ensures within { self.now.column + length self.now.bytes < 2 ^ 64 }
    {
        self.column
    }

    /// Its bytes.
    pub fn bytes(&self) -> &[u8]
        ensures { result.now ≡ self.now.bytes }
    {
        self.bytes
    }

    /// Whether it is this text.
    pub fn is(&self, text: &[u8]) -> bool
        ensures { result ≡ are self.now.bytes text.now }
    {
        self.bytes == text
    }
}

/// Writes the field before the next space after the fields, where it isn't empty, and answers its length.
#[tactic(auto, using(crate::proofs::FieldCuts::fields_skip, crate::proofs::FieldCuts::fields_take))]
fn push_field<'a>(
    found: &mut Vec<Field<'a>>,
    column: usize,
    rest: &'a [u8],
) -> Result<usize, AllocError>
    requires { column + length rest.now < 2 ^ 64 }
    ensures within { IfOk result (λ n. n ≤ length rest.now) }
    ensures more { IfOk result (λ n. found.new.items ++ fields (column + n + 1) (drop (n + 1) rest.now) ≡ found.old.items ++ fields column rest.now) }
{
    let count = before(b' ', rest);
    if count > 0 {
        found.push(Field {
            column,
            bytes: &rest[..count],
        })?;
    }
    Ok(count)
}

/// The fields of a line, first to last.
#[tactic(auto, using(crate::proofs::FieldCuts::fields_on, crate::proofs::FieldCuts::fields_end))]
pub fn split(alloc: Global, line: &[u8]) -> Result<Vec<Field>, AllocError>
    ensures { IfOk result (λ v. v.items ≡ fields 1 line.now) }
{
    let mut found = Vec::new(alloc);
    let mut at = 0;
    while at < line.len() {
        at += push_field(&mut found, at + 1, after(line, at))? + 1;
    }
    Ok(found)
}
