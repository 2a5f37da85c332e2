//! The words of the command line.
use std::alloc::Global;
use std::test::Fail;
use wh_text::Command;
use whitehead::{Task, read_arguments};

/// The limit and the number of workers of words that ask to reduce.
fn asked(alloc: Global, words: &[&str]) -> Result<(u32, u32), Fail> {
    let asked = read_arguments(alloc, words)?;
    if asked.task != Task::Answer(Command::Reduce) {
        return Err("another task")?;
    }
    Ok((asked.limit, asked.workers))
}

/// Whether words ask to reduce with this limit and this number of workers.
fn are_asked(alloc: Global, cases: &[(&[&str], (u32, u32))]) -> Result<bool, Fail> {
    for (words, options) in cases {
        if asked(alloc, words)? != *options {
            return Ok(false);
        }
    }
    Ok(true)
}

#[test]
fn options_are_read(rt: HostRuntime) -> Result<(), Fail> {
    let cases = [
        (["reduce"].as_slice(), (10000, 1)),
        (
            ["--limit", "5", "reduce", "--workers=64"].as_slice(),
            (5, 64),
        ),
        (["reduce", "--limit=131072"].as_slice(), (131072, 1)),
        (["--", "reduce"].as_slice(), (10000, 1)),
    ];
    assert!(rt; are_asked(rt.alloc(), &cases)?);
    Ok(())
}
