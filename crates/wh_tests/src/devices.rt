//! Devices that fail, and large inputs.
ghost use Rattle.std.specs.Prelude.{None};

use crate::support::source;
use std::alloc::Global;
use std::io::{self, ErrorKind, Read, Write};
use std::test::Fail;
use wh_io::{Failed, MemSink, MemSource, Sink, Source, StdSink, StdSource};
use wh_text::Status;
use whitehead::run;

const PROBLEM: &[u8] = b"rank 2\ntuple ab\n";

const ANSWER: &[u8] =
    b"whitehead 1 reduce\nrank 2\ntuple ab\ntrace a:aB\nend b\nflow a 0\nflow b 1 bB:1\ndone\n";

/// A sink that takes all that it is given, and fails whenever it is flushed.
#[derive(Drop)]
struct Unflushable {
    faults: u64,
}

impl Sink for Unflushable {
    ghost held = { λ _. None };

    ghost sent = { λ _. None };

    ghost fault_count = { λ s. s.faults };

    fn faults(&self) -> u64 {
        self.faults
    }

    fn write(&mut self, piece: &[u8]) -> Result<usize, Failed> {
        Ok(piece.len())
    }

    fn flush(&mut self) -> Result<(), Failed> {
        self.faults = self.faults.saturating_add(1);
        Err(Failed)
    }
}

/// The status of a run over the problem, and how often its sink failed.
fn written<K: Sink>(alloc: Global, sink: &mut K) -> Result<(Status, u64), Fail> {
    let mut source = source(alloc, PROBLEM, 4096, &[])?;
    let status = run(alloc, &["reduce"], &mut source, sink);
    Ok((status, sink.faults()))
}

#[test]
fn a_flush_that_fails_is_a_write_fault(rt: HostRuntime) -> Result<(), Fail> {
    let mut sink = Unflushable { faults: 0 };
    assert_eq!(rt; written(rt.alloc(), &mut sink)?, (Status::WriteFault, 1));
    Ok(())
}

/// A writer of the standard library that takes all that it is given, and fails whenever it is flushed.
#[derive(Drop)]
struct UnflushableWriter;

impl Write for UnflushableWriter {
    fn write(&mut self, buf: &[u8]) -> io::Result<usize> {
        Ok(buf.len())
    }

    fn flush(&mut self) -> io::Result<()> {
        Err(io::Error::from(ErrorKind::BrokenPipe))
    }
}

#[test]
fn a_writer_whose_flush_fails_is_a_write_fault(rt: HostRuntime) -> Result<(), Fail> {
    let mut sink = StdSink::new(UnflushableWriter);
    assert_eq!(rt; written(rt.alloc(), &mut sink)?, (Status::WriteFault, 1));
    Ok(())
}

/// A reader of the standard library that gives a text byte by byte, and fails once, before the byte at a place.
#[derive(Drop)]
struct BrokenReader<'a> {
    text: &'a [u8],
    at: usize,
    broken: Option<usize>,
}

impl<'a> Read for BrokenReader<'a> {
    fn read(&mut self, buf: &mut [u8]) -> io::Result<usize> {
        if self.broken == Some(self.at) {
            self.broken = None;
            return Err(io::Error::from(ErrorKind::BrokenPipe));
        }
        match (self.text.get(self.at), buf.first_mut()) {
            (Some(byte), Some(place)) => {
                *place = *byte;
                self.at = self.at.saturating_add(1);
                Ok(1)
            }
            _ => Ok(0),
        }
    }
}

/// The status of a run over such a reader, how often that failed, and whether nothing was sent.
fn read(alloc: Global, broken: Option<usize>) -> (Status, u64, bool) {
    let mut source = StdSource::new(BrokenReader {
        text: PROBLEM,
        at: 0,
        broken,
    });
    let mut sink = MemSink::new(alloc, 4096, Vec::new(alloc));
    let status = run(alloc, &["reduce"], &mut source, &mut sink);
    (status, source.faults(), sink.sent().is_empty())
}

#[test]
fn a_reader_that_fails_in_mid_stream_is_a_read_fault(rt: HostRuntime) {
    let alloc = rt.alloc();
    let seen = [
        read(alloc, Some(10)),
        read(alloc, Some(16)),
        read(alloc, None),
    ];
    let fault = (Status::ReadFault, 1, true);
    assert_eq!(rt; seen, [fault, fault, (Status::Done, 0, false)]);
}

/// A text with a comment behind it that makes it so many bytes long.
fn padded(alloc: Global, text: &[u8], length: usize) -> Result<Vec<u8>, Fail> {
    let mut bytes = Vec::from_slice(alloc, text)?;
    bytes.resize(length, b'#')?;
    Ok(bytes)
}

/// Whether a run over an input sends just this text.
fn sends(alloc: Global, word: &str, input: Vec<u8>, text: &[u8]) -> bool {
    let mut source = MemSource::new(input, 4096, Vec::new(alloc));
    let mut sink = MemSink::new(alloc, 4096, Vec::new(alloc));
    run(alloc, &[word], &mut source, &mut sink);
    sink.sent() == text
}

/// Whether just this is told of the problem with a comment behind it that makes it so many bytes long.
fn problem_is_told(alloc: Global, length: usize, told: &[u8]) -> Result<bool, Fail> {
    Ok(sends(alloc, "reduce", padded(alloc, PROBLEM, length)?, told))
}

/// The same for the answer, which is checked.
fn answer_is_told(alloc: Global, length: usize, told: &[u8]) -> Result<bool, Fail> {
    Ok(sends(alloc, "check", padded(alloc, ANSWER, length)?, told))
}

#[test]
fn a_problem_may_have_so_many_bytes(rt: HostRuntime) -> Result<(), Fail> {
    let alloc = rt.alloc();
    assert!(rt; problem_is_told(alloc, 70_000, ANSWER)?);
    assert!(rt; problem_is_told(alloc, 1_048_576, ANSWER)?);
    let refusal = b"refused input-too-long 1048576\n";
    assert!(rt; problem_is_told(alloc, 1_048_577, refusal)?);
    Ok(())
}

#[test]
fn a_certificate_may_have_so_many_bytes(rt: HostRuntime) -> Result<(), Fail> {
    assert!(rt; answer_is_told(rt.alloc(), 67_108_864, b"valid\n")?);
    Ok(())
}

#[test]
fn a_longer_certificate_is_refused(rt: HostRuntime) -> Result<(), Fail> {
    let refusal = b"refused input-too-long 67108864\n";
    assert!(rt; answer_is_told(rt.alloc(), 67_108_865, refusal)?);
    Ok(())
}
