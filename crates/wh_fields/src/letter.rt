//! Letters: read from a byte, and the byte of each.
ghost use Rattle.std.specs.Prelude.{◌≡◌, ◌≤◌};
ghost use Rattle.wh_words.specs.Limits.{most_rank};
ghost use Rattle.wh_fields.specs.Words as spec;

use wh_words::Letter;

/// The letter of rank `n` that a byte stands for.
pub fn letter_of(n: u8, byte: u8) -> Option<Letter>
    requires { n ≤ most_rank }
    ensures { result ≡ spec.letter_of n byte }
{
    if byte >= b'a' && byte < b'a' + n {
        Some(Letter::of_index(2 * (byte - b'a')))
    } else if byte >= b'A' && byte < b'A' + n {
        Some(Letter::of_index(2 * (byte - b'A') + 1))
    } else {
        None
    }
}

/// The byte of a letter.
pub fn letter_byte(x: Letter) -> u8
    ensures { result ≡ spec.letter_text x }
{
    if x.index() % 2 == 0 {
        b'a' + x.index() / 2
    } else {
        b'A' + x.index() / 2
    }
}
