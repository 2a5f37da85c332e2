ghost use Rattle.std.specs.Prelude.{◌≡◌, ℕ, ◌<◌, ◌≤◌, List, [], length, take, IfOk, OnOk, OnErr};
ghost use Rattle.std.specs.declared.option.Option.{Option};
ghost use Rattle.wh_io.specs.Device.{Consumed, Appended, StaysSent, IsAllSent, IsAtEnd, counted};

use thiserror::Error;

/// The one fault of a device.
#[derive(Clone, Copy, Debug, PartialEq, Eq, Error)]
#[error("the device failed")]
pub struct Failed;

/// Where bytes come from.
///
/// A source counts its faults: a call that fails is counted, and one that succeeds is not. So a
/// caller can tell afterwards whether one came.
pub trait Source {
    // The bytes that are left to read, where the source tells them.
    ghost left: { Self → Option (List ℕ) };

    // How often it failed.
    ghost fault_count: { Self → ℕ };

    /// How often the source failed so far. The count stays at `u64::MAX` once it is there.
    fn faults(&self) -> u64
        ensures { result ≡ fault_count self.now };

    /// Puts the next bytes at the front of `into`, which isn't empty, and answers how many.
    ///
    /// 0 says that no bytes are left. `Failed` says that the source failed in this call, so that
    /// its count went up, unless it stood at `u64::MAX`. The bytes left are then as before, so the
    /// caller may read again, and `into` may hold anything.
    fn read(&mut self, into: &mut [u8]) -> Result<usize, Failed>
        requires { 0 < length into.old }
        ensures bound { IfOk result (λ n. n ≤ length into.new) }

        // The bytes given are the first of those left, and the others are left. A source that no
        // longer tells its bytes never tells them again.
        ensures bytes { IfOk result (λ n.
            Consumed (left self.old) (left self.new) (take n into.new)) }
        ensures end { IfOk result (λ n. n ≡ 0 → IsAtEnd (left self.new)) }
        ensures kept { OnErr result (Consumed (left self.old) (left self.new) []) }
        ensures fault { fault_count self.new ≡ counted (fault_count self.old) result };
}

/// Where bytes go.
///
/// A sink counts its faults: a call that fails is counted, and one that succeeds is not. So a
/// caller can tell afterwards whether one came.
pub trait Sink {
    // The bytes that the sink holds, which are all that it took, where it tells them.
    ghost held: { Self → Option (List ℕ) };

    // Those of them that it sent on, where it tells them.
    ghost sent: { Self → Option (List ℕ) };

    // How often it failed.
    ghost fault_count: { Self → ℕ };

    /// How often the sink failed so far. The count stays at `u64::MAX` once it is there.
    fn faults(&self) -> u64
        ensures { result ≡ fault_count self.now };

    /// Takes bytes from the front of `piece`, and answers how many: at least one, unless `piece`
    /// is empty.
    ///
    /// The sink may send bytes on, or keep them back until a flush. `Failed` says that it failed in
    /// this call, so that its count went up, unless it stood at `u64::MAX`. It then took nothing.
    fn write(&mut self, piece: &[u8]) -> Result<usize, Failed>
        ensures bound { IfOk result (λ n. n ≤ length piece.now) }
        ensures some { IfOk result (λ n. 0 < length piece.now → 0 < n) }

        // The bytes held are those before, and then the bytes taken. A sink that no longer tells
        // its bytes never tells them again.
        ensures bytes { IfOk result (λ n.
            Appended (held self.old) (held self.new) (take n piece.now)) }
        ensures kept { OnErr result (Appended (held self.old) (held self.new) []) }
        ensures sent { StaysSent (sent self.old) (sent self.new) }
        ensures fault { fault_count self.new ≡ counted (fault_count self.old) result };

    /// Sends on all that the sink keeps back. The bytes held stay.
    ///
    /// `Failed` says that the sink failed in this call, so that its count went up, unless it stood
    /// at `u64::MAX`. It may then have sent on a part.
    fn flush(&mut self) -> Result<(), Failed>
        ensures bytes { Appended (held self.old) (held self.new) [] }
        ensures sent { StaysSent (sent self.old) (sent self.new) }
        ensures all { OnOk result (IsAllSent (held self.new) (sent self.new)) }
        ensures fault { fault_count self.new ≡ counted (fault_count self.old) result };
}
