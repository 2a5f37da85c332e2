ghost use Rattle.std.specs.Prelude.{◌≡◌, ◌<◌, ◌≤◌, ◌↔◌, min, [], ◌++◌, length, take, drop, Some, IsErr, IfOk, OnErr, vec_len};
ghost use Rattle.wh_io.specs.Device.{counted};
ghost use Rattle.wh_io.specs.Memory.{SourceState, NextReadFails, after_read, after_failed_read};

use crate::device::{Failed, Source};
use std::marker::Model;

/// A source in memory, for tests: how many bytes a read gives at most, and which reads fail, is
/// told when it is made.
#[derive(Drop)]
pub struct MemSource {
    bytes: Vec<u8>,
    position: usize,
    most: usize,
    fails: Vec<u64>,
    calls: u64,
    faults: u64,
}

impl Model for MemSource {
    ghost Value = { SourceState };

    ghost view = { λ s. record {
      bytes_left = drop s.position s.bytes.items;
      most = s.most;
      fails = s.fails.items;
      calls = s.calls;
      faults = s.faults;
    } };

    ghost invariant = { λ s. (0 < s.most) × (s.position ≤ vec_len s.bytes) };
}

impl MemSource {
    /// A source of `bytes` that gives at most `most` of them in one read. The reads whose numbers
    /// are in `fails`, counted from 1, fail and give none. It takes no memory.
    pub fn new(bytes: Vec<u8>, most: usize, fails: Vec<u64>) -> MemSource
        requires { 0 < most }
        ensures { result ≡ record {
          bytes_left = bytes.items;
          most = most;
          fails = fails.items;
          calls = 0;
          faults = 0;
        } }
    {
        MemSource {
            bytes,
            position: 0,
            most,
            fails,
            calls: 0,
            faults: 0,
        }
    }

    /// Puts the next bytes at the front of `into`, as many as there are and as are allowed, and answers how many.
    fn give(&mut self, into: &mut [u8]) -> usize
        ensures count { result ≡ min self.old.most (min (length into.new) (length self.old.bytes_left)) }
        ensures bytes { into.new ≡ take result self.old.bytes_left ++ drop result into.old }
        ensures given { self.new ≡ record self.old { bytes_left = drop result self.old.bytes_left } }
    {
        let rest = &self.bytes[self.position..];
        let count = self.most.min(into.len()).min(rest.len());
        into[..count].copy_from_slice(&rest[..count]);
        self.position += count;
        count
    }
}

impl Source for MemSource {
    ghost left = { λ s. Some s.bytes_left };

    ghost fault_count = { λ s. s.faults };

    fn faults(&self) -> u64 {
        self.faults
    }

    /// Puts the next bytes at the front of `into`, as many as there are and as are allowed.
    ///
    /// `Failed` comes at exactly the reads that were told to fail, and changes the counts alone.
    /// The numbers of reads and of faults stay at `u64::MAX` once they are there.
    fn read(&mut self, into: &mut [u8]) -> Result<usize, Failed>
        requires { 0 < length into.old }
        ensures fails { IsErr result ↔ NextReadFails self.old }

        // What a read gives.
        ensures count { IfOk result (λ n.
            n ≡ min self.old.most (min (length into.new) (length self.old.bytes_left))) }
        ensures end { IfOk result (λ n. n ≡ 0 → self.new.bytes_left ≡ []) }
        ensures bytes { IfOk result (λ n.
            into.new ≡ take n self.old.bytes_left ++ drop n into.old) }
        ensures ok { IfOk result (λ n. self.new ≡ after_read self.old n) }

        // What a fault leaves.
        ensures err { OnErr result (self.new ≡ after_failed_read self.old) }
        ensures untouched { OnErr result (into.new ≡ into.old) }
        ensures fault { self.new.faults ≡ counted self.old.faults result }
    {
        self.calls = self.calls.saturating_add(1);
        if self.fails.contains(&self.calls) {
            self.faults = self.faults.saturating_add(1);
            return Err(Failed);
        }
        Ok(self.give(into))
    }
}
