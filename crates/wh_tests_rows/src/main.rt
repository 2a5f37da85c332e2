//! Runs the program on each case of its standard input, over memory, and writes what each is told.
//!
//! A case begins with a line `== WORDS`, which has the words of the command line, or `=| WORDS`; the input follows, up to
//! the next such line. After `=|` the last byte of the input, which ends its last line, is left out. A long text is told by
//! how many bytes it has and by their hash, both to base 16.
#![tactic(auto)]

ghost use Rattle.std.specs.Prelude.{◌<◌, ◌≤◌, length};

use std::alloc::Global;
use std::io::{self, Read, Write};
use std::str;
use wh_io::{MemSink, MemSource};
use whitehead::run;

/// A text that has more bytes than this isn't told whole.
const MOST_TOLD: usize = 16384;

/// Where the case after the one at `start` begins, or the end.
fn next_start(bytes: &[u8], start: usize) -> usize
    requires { start < length bytes.now }
    ensures later { start < result }
    ensures within { result ≤ length bytes.now }
{
    for at in start..bytes.len() {
        let rest = &bytes[at..];
        if rest.starts_with(b"\n==") || rest.starts_with(b"\n=|") {
            return at + 1;
        }
    }
    bytes.len()
}

/// The words of a head line.
fn words_of(alloc: Global, head: &str) -> io::Result<Vec<&str>> {
    let mut words = Vec::new(alloc);
    for word in head.split_whitespace() {
        words.push(word)?;
    }
    Ok(words)
}

/// The bytes before the first byte 10, and those after it.
fn head_and_input(case: &[u8]) -> (&[u8], &[u8]) {
    match case.iter().position(|byte| *byte == b'\n') {
        Some(at) => (&case[..at], &case[at + 1..]),
        None => (case, &[]),
    }
}

/// The input without its last byte.
fn without_last(input: &[u8]) -> &[u8] {
    match input {
        [front @ .., _] => front,
        [] => input,
    }
}

/// The hash of bytes, as Fowler, Noll and Vo define it (FNV-1a of 64 bits).
fn hash_of(bytes: &[u8]) -> u64 {
    let mut made: u64 = 0xcbf2_9ce4_8422_2325;
    for byte in bytes {
        made = (made ^ u64::from(*byte)).wrapping_mul(0x0000_0100_0000_01b3);
    }
    made
}

/// A number to base 16, with all of its digits.
fn digits_of(number: u64) -> [u8; 16] {
    let mut digits = [b'0'; 16];
    let mut left = number;
    for k in 0..16 {
        let digit = (left % 16) as usize;
        digits[15 - k] = b"0123456789abcdef"[digit];
        left /= 16;
    }
    digits
}

/// Writes a text, or what is told of a long one.
fn write_text(rt: &HostRuntime, text: &[u8]) -> io::Result<()> {
    let mut out = rt.stdout();
    if text.len() <= MOST_TOLD {
        return out.write_all(text);
    }
    out.write_all(b"bytes ")?;
    out.write_all(&digits_of(text.len() as u64))?;
    out.write_all(b" hash ")?;
    out.write_all(&digits_of(hash_of(text)))?;
    out.write_all(b"\n")
}

/// Runs one case, and writes its words, its status and its text.
fn run_case(rt: &HostRuntime, case: &[u8]) -> io::Result<()> {
    let alloc = rt.alloc();
    let (head, rest) = head_and_input(case);
    let mut words = words_of(alloc, str::from_utf8(head).unwrap_or(""))?;
    let input = if head.starts_with(b"=|") {
        without_last(rest)
    } else {
        rest
    };
    let mut source = MemSource::new(Vec::from_slice(alloc, input)?, 4096, Vec::new(alloc));
    let mut sink = MemSink::new(alloc, 4096, Vec::new(alloc));
    if !words.is_empty() {
        words.remove(0);
    }
    let status = run(alloc, &words, &mut source, &mut sink);
    let mut out = rt.stdout();
    out.write_all(head)?;
    out.write_all(b"\nstatus ")?;
    out.write_all(&[b'0' + status.number(), b'\n'])?;
    write_text(rt, sink.held())
}

fn main(rt: HostRuntime) -> io::Result<()> {
    let mut bytes = Vec::new(rt.alloc());
    rt.stdin().read_to_end(&mut bytes)?;
    let mut start = 0;
    while start < bytes.len() {
        let end = next_start(&bytes, start);
        run_case(&rt, &bytes[start..end])?;
        start = end;
    }
    Ok(())
}
