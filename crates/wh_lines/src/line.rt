//! Lines of a text.
ghost use Rattle.std.specs.Prelude.{◌≡◌, ◌≤◌, length, drop};
ghost use Rattle.wh_lines.specs.Lines as spec;
ghost use Rattle.wh_lines.specs.Scans as scan;

/// How many bytes stand before the first byte `stop`, or in all where none is.
#[tactic(auto, using(crate::proofs::Scanning::before_more, crate::proofs::Scanning::before_found, crate::proofs::Scanning::before_end, crate::proofs::Scanning::before_within))]
pub fn before(stop: u8, bytes: &[u8]) -> usize
    ensures same { result ≡ scan.before stop bytes.now }
    ensures within { result ≤ length bytes.now }
{
    let mut count = 0;
    for byte in bytes {
        if *byte == stop {
            return count;
        }
        count += 1;
    }
    count
}

/// What follows the first `count` bytes.
pub fn after(bytes: &[u8], count: usize) -> &[u8]
    ensures { result.now ≡ drop count bytes.now }
{
    if count <= bytes.len() {
        bytes.split_at(count).1
    } else {
        &[]
    }
}

/// The column of the leftmost byte that may not stand in a line.
#[tactic(auto, using(crate::proofs::Scanning::bad_more, crate::proofs::Scanning::bad_low, crate::proofs::Scanning::bad_high, crate::proofs::Scanning::bad_end))]
pub fn bad_at(line: &[u8]) -> Option<usize>
    ensures { result ≡ spec.bad_at 1 line.now }
{
    let mut column = 1;
    for byte in line {
        if *byte < 32 || *byte > 126 {
            return Some(column);
        }
        column += 1;
    }
    None
}

/// Whether a line begins with `#`.
pub fn is_comment(line: &[u8]) -> bool
    ensures { result ≡ spec.is_comment line.now }
{
    match line {
        [first, ..] => *first == b'#',
        [] => false,
    }
}
