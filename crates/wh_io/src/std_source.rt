ghost use Rattle.std.specs.Prelude.{◌≡◌, ◌≤◌, length, None, IfOk};
ghost use Rattle.std.specs.Io.KnownBytes.{ReadConsumes};
ghost use Rattle.wh_io.specs.Device.{counted};
ghost use Rattle.wh_io.specs.Standard.{reader_of, source_faults};

use crate::device::{Failed, Source};
use std::io::Read;

/// A source over a reader of the standard library. Each error of the reader is a fault.
///
/// It tells nothing of the bytes left, since a reader may fall silent about them and tell again.
#[derive(Drop)]
pub struct StdSource<R> {
    reader: R,
    faults: u64,
}

impl<R> StdSource<R> {
    /// A source that reads from `reader`. It takes no memory.
    pub fn new(reader: R) -> StdSource<R>
        ensures reader { reader_of result ≡ reader }
        ensures faults { source_faults result ≡ 0 }
    {
        StdSource { reader, faults: 0 }
    }
}

impl<R: Read> Source for StdSource<R> {
    ghost left = { λ _. None };

    ghost fault_count = { source_faults };

    fn faults(&self) -> u64 {
        self.faults
    }

    /// Reads once from the reader. `Failed` comes at each error of the reader, and the count of
    /// faults then goes up by one, if it isn't `u64::MAX`.
    fn read(&mut self, into: &mut [u8]) -> Result<usize, Failed>
        ensures bound { IfOk result (λ n. n ≤ length into.new) }
        ensures bytes { ReadConsumes (R.remaining (reader_of self.old))
            (R.remaining (reader_of self.new)) result into.new }
        ensures fault { source_faults self.new ≡ counted (source_faults self.old) result }
    {
        match self.reader.read(into) {
            Ok(count) => Ok(count),
            Err(_) => {
                self.faults = self.faults.saturating_add(1);
                Err(Failed)
            }
        }
    }
}
