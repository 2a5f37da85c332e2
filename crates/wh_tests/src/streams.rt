//! Faults of reading and writing, in mid-stream.
use crate::support::{sink, source};
use std::alloc::Global;
use std::test::Fail;
use wh_io::{MemSink, MemSource, Sink, Source};
use wh_text::Status;
use whitehead::run;

const PROBLEM: &[u8] = b"rank 2\ntuple ab\n";

/// How a run ended: its status, whether the sink held and sent just so many bytes, and the faults of both devices.
#[derive(Clone, Copy, Debug, PartialEq, Eq)]
struct Ending {
    status: Status,
    held: bool,
    sent: bool,
    read_faults: u64,
    write_faults: u64,
}

/// Runs over devices in memory, whose sink is to hold and to send these bytes.
fn observed(
    alloc: Global,
    word: &str,
    source: &mut MemSource,
    sink: &mut MemSink,
    held: &[u8],
    sent: &[u8],
) -> Ending {
    let status = run(alloc, &[word], source, sink);
    Ending {
        status,
        held: sink.held() == held,
        sent: sink.sent() == sent,
        read_faults: source.faults(),
        write_faults: sink.faults(),
    }
}

/// Runs over a source that gives 10 bytes in a read, of which those with these numbers fail, and a sink that is to hold and
/// to send these bytes.
fn read(alloc: Global, word: &str, fails: &[u64], held: &[u8]) -> Result<Ending, Fail> {
    let mut source = source(alloc, PROBLEM, 10, fails)?;
    let mut sink = MemSink::new(alloc, 4096, Vec::new(alloc));
    Ok(observed(alloc, word, &mut source, &mut sink, held, held))
}

/// Runs over a sink that takes 16 bytes in a write, of which those with these numbers fail.
fn written(alloc: Global, fails: &[u64], held: &[u8], sent: &[u8]) -> Result<Ending, Fail> {
    let mut sink = sink(alloc, 16, fails)?;
    let mut source = source(alloc, PROBLEM, 4096, &[])?;
    Ok(observed(alloc, "reduce", &mut source, &mut sink, held, sent))
}

/// That a run ended so, and the sink held and sent what it should.
fn ended(status: Status, read_faults: u64, write_faults: u64) -> Ending {
    Ending {
        status,
        held: true,
        sent: true,
        read_faults,
        write_faults,
    }
}

#[test]
fn a_read_fault_writes_nothing(rt: HostRuntime) -> Result<(), Fail> {
    let seen = read(rt.alloc(), "reduce", &[2], b"")?;
    assert_eq!(rt; seen, ended(Status::ReadFault, 1, 0));
    Ok(())
}

#[test]
fn a_write_fault_leaves_a_prefix_of_the_text(rt: HostRuntime) -> Result<(), Fail> {
    let seen = written(rt.alloc(), &[2], b"whitehead 1 redu", b"")?;
    assert_eq!(rt; seen, ended(Status::WriteFault, 0, 1));
    Ok(())
}

#[test]
fn refused_words_read_nothing(rt: HostRuntime) -> Result<(), Fail> {
    // A read would fail.
    let seen = read(rt.alloc(), "solve", &[1], b"refused words\n")?;
    assert_eq!(rt; seen, ended(Status::Refused, 0, 0));
    Ok(())
}

#[test]
fn statuses_have_their_numbers(rt: HostRuntime) {
    for (status, number) in [
        (Status::Done, 0),
        (Status::No, 1),
        (Status::Refused, 2),
        (Status::Undecided, 3),
        (Status::ReadFault, 4),
        (Status::WriteFault, 5),
        (Status::OutOfMemory, 6),
    ] {
        assert_eq!(rt; status.number(), number);
    }
}
