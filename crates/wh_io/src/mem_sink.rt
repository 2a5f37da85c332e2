ghost use Rattle.std.specs.Prelude.{◌≡◌, ◌<◌, ◌≤◌, min, [], length, take, Some, IsOk, IsErr, IfOk, OnErr, vec_len};
ghost use Rattle.wh_io.specs.Device.{StaysSent, counted};
ghost use Rattle.wh_io.specs.Memory.{SinkState, NextWriteFails, after_write, after_failed_write, after_flush};

use crate::device::{Failed, Sink};
use std::alloc::Global;
use std::marker::Model;

/// A sink in memory, for tests: how many bytes a write takes at most, and which writes fail, is
/// told when it is made. It sends bytes on at a flush alone.
#[derive(Drop)]
pub struct MemSink {
    bytes: Vec<u8>,
    sent: usize,
    most: usize,
    fails: Vec<u64>,
    calls: u64,
    faults: u64,
}

impl Model for MemSink {
    ghost Value = { SinkState };

    ghost view = { λ s. record {
      bytes_held = s.bytes.items;
      bytes_sent = take s.sent s.bytes.items;
      most = s.most;
      fails = s.fails.items;
      calls = s.calls;
      faults = s.faults;
    } };

    ghost invariant = { λ s. (0 < s.most) × (s.sent ≤ vec_len s.bytes) };
}

impl MemSink {
    /// A sink that holds nothing yet, and takes at most `most` bytes in one write. The writes
    /// whose numbers are in `fails`, counted from 1, fail and take none. What it holds later
    /// comes from `alloc`; it takes no memory yet.
    pub fn new(alloc: Global, most: usize, fails: Vec<u64>) -> MemSink
        requires { 0 < most }
        ensures { result ≡ record {
          bytes_held = [];
          bytes_sent = [];
          most = most;
          fails = fails.items;
          calls = 0;
          faults = 0;
        } }
    {
        MemSink {
            bytes: Vec::new(alloc),
            sent: 0,
            most,
            fails,
            calls: 0,
            faults: 0,
        }
    }

    /// The bytes that it took so far.
    pub fn held(&self) -> &[u8]
        ensures { result.now ≡ self.now.bytes_held }
    {
        self.bytes.as_slice()
    }

    /// Those of them that it sent on: what it held at the last flush.
    pub fn sent(&self) -> &[u8]
        ensures { result.now ≡ self.now.bytes_sent }
    {
        &self.bytes[..self.sent]
    }
}

impl Sink for MemSink {
    ghost held = { λ s. Some s.bytes_held };

    ghost sent = { λ s. Some s.bytes_sent };

    ghost fault_count = { λ s. s.faults };

    fn faults(&self) -> u64 {
        self.faults
    }

    /// Takes bytes from the front of `piece`, as many as there are and as are allowed.
    ///
    /// `Failed` comes at each write that was told to fail, and at one that finds no memory; either
    /// takes nothing and changes the counts alone. The numbers of writes and of faults stay at
    /// `u64::MAX` once they are there.
    fn write(&mut self, piece: &[u8]) -> Result<usize, Failed>
        ensures fails { NextWriteFails self.old → IsErr result }

        // An empty piece needs no memory, so that it is refused only where that was told.
        ensures empty { piece.now ≡ [] → IsErr result → NextWriteFails self.old }

        // What a write takes.
        ensures count { IfOk result (λ n. n ≡ min self.old.most (length piece.now)) }
        ensures some { IfOk result (λ n. 0 < length piece.now → 0 < n) }
        ensures ok { IfOk result (λ n. self.new ≡ after_write self.old (take n piece.now)) }

        // What a fault leaves.
        ensures err { OnErr result (self.new ≡ after_failed_write self.old) }
        ensures fault { self.new.faults ≡ counted self.old.faults result }
    {
        self.calls = self.calls.saturating_add(1);
        if self.fails.contains(&self.calls) {
            self.faults = self.faults.saturating_add(1);
            return Err(Failed);
        }
        let count = self.most.min(piece.len());
        if self.bytes.extend_from_slice(&piece[..count]).is_err() {
            self.faults = self.faults.saturating_add(1);
            return Err(Failed);
        }
        Ok(count)
    }

    /// Sends on all bytes held, and never fails.
    fn flush(&mut self) -> Result<(), Failed>
        ensures ok { IsOk result }
        ensures flushed { self.new ≡ after_flush self.old }
        ensures sent { StaysSent (Some self.old.bytes_sent) (Some self.new.bytes_sent) }
    {
        self.sent = self.bytes.len();
        Ok(())
    }
}
