use crate::counts::Count;
use crate::outside::{Failed, Sink};
use lean_fixed::NoMemory;
use std::alloc::Global;
use std::marker::Model;

/// A sink in memory, for tests: it takes few bytes at a time, has room for so many, and fails at
/// chosen writes.
#[derive(Drop)]
pub struct MemSink {
    bytes: Vec<u8>,
    most: usize,
    room: usize,
    fails: Vec<u64>,
    writes: Count,
    faults: Count,
}

impl Model for MemSink {
    ghost use Rattle.std.specs.Prelude.{◌+◌, ◌<◌, ◌≤◌, vec_len, vec_capacity};
    ghost use Rattle.lean_io.specs.MemSink.{SinkState};

    ghost Value = { SinkState };

    ghost view = { λ s. record {
      bytes = s.bytes.items;
      most = s.most;
      room = s.room;
      fails = s.fails.items;
      writes = s.writes;
      faults = s.faults;
    } };

    ghost invariant = { λ s. (0 < s.most) × (vec_len s.bytes + s.room ≤ vec_capacity s.bytes) };
}

impl MemSink {
    ghost use Rattle.std.specs.Prelude.{◌≡◌, ◌<◌, IfOk};
    ghost use Rattle.lean_io.specs.MemSink.{new_sink};

    /// A sink that takes at most `most` bytes at a time and `room` bytes in all. A write of a piece
    /// that is not empty fails where its number is in `fails`, counted from 1 over all writes, or
    /// where no room is left. A write of an empty piece never fails. `NoMemory`: there is no memory
    /// for `room` bytes.
    pub fn new(
        alloc: Global,
        most: usize,
        room: usize,
        fails: Vec<u64>,
    ) -> Result<MemSink, NoMemory>
        requires { 0 < most }
        ensures { IfOk result (λ s. s ≡ new_sink most room fails.items) }
    {
        let bytes = Vec::with_capacity(alloc, room)?;
        Ok(MemSink {
            bytes,
            most,
            room,
            fails,
            writes: Count::new(),
            faults: Count::new(),
        })
    }

    /// The bytes that were taken.
    pub fn bytes(&self) -> &[u8]
        ensures { result.now ≡ self.now.bytes }
    {
        self.bytes.as_slice()
    }
}

impl Sink for MemSink {
    ghost use Rattle.std.specs.Prelude.{◌≡◌, ◌<◌, ◌≤◌, ◌↔◌, Some, length, IfOk, OnErr, IsErr};
    ghost use Rattle.lean_io.specs.MemSink.{FailsNext, amount, taken, failed};

    ghost told = { λ s. Some s.bytes };

    ghost faults = { λ s. s.faults };

    ghost writes = { λ s. s.writes };

    fn write(&mut self, bytes: &[u8]) -> Result<usize, Failed>
        ensures fails { IsErr result ↔ ((0 < length bytes.now) × FailsNext self.old) }
        ensures amount { IfOk result (λ n. n ≡ amount self.old bytes.now) }
        ensures some { IfOk result (λ n. 0 < length bytes.now → 0 < n) }
        ensures taken { IfOk result (λ n. self.new ≡ taken self.old n bytes.now) }
        ensures failed { OnErr result (self.new ≡ failed self.old) }
        ensures grows { self.old.faults ≤ self.new.faults }
    {
        self.writes.rise();
        if !bytes.is_empty() && (self.room == 0 || self.fails.contains(&self.writes.number())) {
            self.faults.rise();
            return Err(Failed);
        }
        let n = bytes.len().min(self.most).min(self.room);
        match self.bytes.extend_from_slice(&bytes[..n]) {
            Ok(()) => {
                self.room -= n;
                Ok(n)
            }
            Err(_) => unreachable!(),
        }
    }
}
