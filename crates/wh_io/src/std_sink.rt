ghost use Rattle.std.specs.Prelude.{◌≡◌, ◌<◌, ◌≤◌, length, None, IfOk};
ghost use Rattle.std.specs.Io.KnownBytes.{Keeps, WriteAppends};
ghost use Rattle.wh_io.specs.Device.{counted};
ghost use Rattle.wh_io.specs.Standard.{writer_of, sink_faults};

use crate::device::{Failed, Sink};
use std::io::Write;

/// A sink over a writer of the standard library. Each error of the writer is a fault, and so is a
/// write that takes nothing of a piece that isn't empty.
///
/// It tells nothing of the bytes held and sent on, since a writer may fall silent about them and
/// tell again.
#[derive(Drop)]
pub struct StdSink<W> {
    writer: W,
    faults: u64,
}

impl<W> StdSink<W> {
    /// A sink that writes to `writer`. It takes no memory.
    pub fn new(writer: W) -> StdSink<W>
        ensures writer { writer_of result ≡ writer }
        ensures faults { sink_faults result ≡ 0 }
    {
        StdSink { writer, faults: 0 }
    }
}

impl<W: Write> Sink for StdSink<W> {
    ghost held = { λ _. None };

    ghost sent = { λ _. None };

    ghost fault_count = { sink_faults };

    fn faults(&self) -> u64 {
        self.faults
    }

    /// Writes once to the writer. `Failed` comes at each error of the writer, and where it takes
    /// nothing of a piece that isn't empty; the count of faults then goes up by one, if it isn't
    /// `u64::MAX`.
    fn write(&mut self, piece: &[u8]) -> Result<usize, Failed>
        ensures bound { IfOk result (λ n. n ≤ length piece.now) }
        ensures some { IfOk result (λ n. 0 < length piece.now → 0 < n) }
        ensures bytes { WriteAppends (W.contents (writer_of self.old))
            (W.contents (writer_of self.new)) result piece.now }
        ensures fault { sink_faults self.new ≡ counted (sink_faults self.old) result }
    {
        match self.writer.write(piece) {
            Ok(count) if count > 0 || piece.is_empty() => Ok(count),
            _ => {
                self.faults = self.faults.saturating_add(1);
                Err(Failed)
            }
        }
    }

    /// Flushes the writer. `Failed` comes at an error of the writer, and the count of faults then
    /// goes up by one, if it isn't `u64::MAX`.
    fn flush(&mut self) -> Result<(), Failed>
        ensures bytes { Keeps (W.contents (writer_of self.old))
            (W.contents (writer_of self.new)) }
        ensures fault { sink_faults self.new ≡ counted (sink_faults self.old) result }
    {
        match self.writer.flush() {
            Ok(()) => Ok(()),
            Err(_) => {
                self.faults = self.faults.saturating_add(1);
                Err(Failed)
            }
        }
    }
}
