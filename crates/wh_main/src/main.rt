//! The program: standard input and output round the one call.
#![tactic(auto)]

use std::alloc::Global;
use std::env;
use std::io::{self, ErrorKind};
use std::process::ExitCode;
use wh_data::Status;
use wh_io::{StdSink, StdSource};
use whitehead::run;

/// The words after the program's name.
fn words_of(rt: &HostRuntime) -> io::Result<Vec<String>> {
    let mut words = Vec::new(rt.alloc());
    for word in env::args(rt)?.skip(1) {
        words.push(word)?;
    }
    Ok(words)
}

/// The same words, lent.
fn lent(alloc: Global, words: &[String]) -> io::Result<Vec<&str>> {
    let mut lent = Vec::new(alloc);
    for word in words {
        lent.push(word.as_str())?;
    }
    Ok(lent)
}

/// Runs the program on its words. Words that aren't text are refused as no words are.
fn status(rt: &HostRuntime) -> Status {
    let alloc = rt.alloc();
    let mut source = StdSource::new(rt.stdin());
    let mut sink = StdSink::new(rt.stdout());
    match words_of(rt) {
        Ok(words) => match lent(alloc, &words) {
            Ok(lent) => run(alloc, &lent, &mut source, &mut sink),
            Err(_) => Status::OutOfMemory,
        },
        Err(error) => {
            if error.kind() == ErrorKind::OutOfMemory {
                Status::OutOfMemory
            } else {
                run(alloc, &[], &mut source, &mut sink)
            }
        }
    }
}

fn main(rt: HostRuntime) -> ExitCode {
    ExitCode::from(status(&rt).number())
}
