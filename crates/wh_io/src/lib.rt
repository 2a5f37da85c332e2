//! Sources and sinks of bytes that count their faults.
#![tactic(auto)]

mod device;
mod mem_sink;
mod mem_source;
mod std_sink;
mod std_source;

pub use device::{Failed, Sink, Source};
pub use mem_sink::MemSink;
pub use mem_source::MemSource;
pub use std_sink::StdSink;
pub use std_source::StdSource;
