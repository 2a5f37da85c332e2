//! Canonical numbers: read, and printed.
ghost use Rattle.std.specs.Prelude.{◌≡◌, ◌++◌, OnOk, decimal};
ghost use Rattle.wh_lines.specs.Numbers as spec;
ghost use Rattle.wh_lines.specs.Rows.{row_text, number_row};

use itoa::Buffer;
use std::alloc::AllocError;

/// A number with one more digit after its own. None where the byte is no digit, or the number is too large.
fn next_digit(n: u64, byte: u8) -> Option<u64>
    ensures { result ≡ spec.next_digit n byte }
{
    if byte < b'0' || byte > b'9' {
        return None;
    }
    let digit = (byte - b'0') as u64;
    if n > (18446744073709551615 - digit) / 10 {
        return None;
    }
    Some(10 * n + digit)
}

/// The number of digits, which may begin with 0.
#[tactic(auto, using(crate::proofs::Digits::digits_end))]
fn digits(bytes: &[u8]) -> Option<u64>
    ensures { result ≡ spec.digits_from 0 bytes.now }
{
    let mut n = 0;
    for byte in bytes {
        match next_digit(n, *byte) {
            Some(next) => n = next,
            None => return None,
        }
    }
    Some(n)
}

/// The number of a field: of `0`, or of digits whose first isn't 0. None where the field is no such number below 2 ^ 64.
pub fn canonical_number(bytes: &[u8]) -> Option<u64>
    ensures { result ≡ spec.number bytes.now }
{
    match bytes {
        [] => None,
        [first, rest @ ..] => {
            if *first != b'0' {
                digits(bytes)
            } else if rest.is_empty() {
                Some(0)
            } else {
                None
            }
        }
    }
}

/// Writes a number in decimal.
pub fn print_number(out: &mut Vec<u8>, n: u64) -> Result<(), AllocError>
    ensures { OnOk result (out.new.items ≡ out.old.items ++ decimal n) }
{
    let mut buffer = Buffer::new();
    out.extend_from_slice(buffer.format(n).as_bytes())?;
    Ok(())
}

/// Writes the line of a keyword and a number.
pub fn print_number_row(out: &mut Vec<u8>, keyword: &[u8], n: u64) -> Result<(), AllocError>
    ensures { OnOk result (out.new.items ≡ out.old.items ++ row_text (number_row keyword.now n)) }
{
    out.extend_from_slice(keyword)?;
    out.push(b' ')?;
    print_number(out, n)?;
    out.push(b'\n')?;
    Ok(())
}
