//! What is told of a certificate.
ghost use Rattle.std.specs.Prelude.{◌≡◌, IfOk};
ghost use Rattle.whitehead.specs.CheckedTexts.{checked_text, checked_status};

use itoa::Buffer;
use std::alloc::Global;
use wh_cert::Checked;
use wh_text::Status;
use wh_words::OutOfMemory;

/// How a run ends that tells what is found.
pub fn status_of(found: Checked) -> Status
    ensures { result ≡ checked_status found }
{
    match found {
        Checked::Valid => Status::Done,
        Checked::Invalid { .. } => Status::No,
    }
}

/// The line that tells what is found: `valid`, or `invalid line L RULE`.
#[tactic(auto, unfolding(crate::specs::CheckedTexts::checked_text))]
pub fn print_checked(alloc: Global, found: Checked) -> Result<Vec<u8>, OutOfMemory>
    ensures { IfOk result (λ v. v.items ≡ checked_text found) }
{
    let mut out = Vec::new(alloc);
    match found {
        Checked::Valid => out.extend_from_slice(b"valid\n")?,
        Checked::Invalid { line, rule } => {
            out.extend_from_slice(b"invalid line ")?;
            let mut buffer = Buffer::new();
            out.extend_from_slice(buffer.format(line).as_bytes())?;
            out.push(b' ')?;
            out.extend_from_slice(rule.name().as_bytes())?;
            out.push(b'\n')?;
        }
    }
    Ok(out)
}
