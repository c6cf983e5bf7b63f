//! A sink into memory, for tests.

ghost use Rattle.std.specs.Prelude.{◌≡◌, ◌<◌, ◌≤◌, ◌↔◌, [], length, take, Some, IfOk, OnErr, IsErr};
ghost use Rattle.scev_outside.specs.Memory.{WriteFails, taken_count, after_write, after_failed_write};

use crate::failed::Failed;
use crate::listed::is_listed;
use crate::sink::Sink;
use std::alloc::{AllocError, Global};
use std::marker::Model;

/// A sink into memory, for tests: it has room for so many bytes, takes them in pieces, and fails where
/// it is told to. It takes its memory when it is made, and none later.
#[derive(Debug, Drop)]
pub struct MemorySink {
    bytes: Vec<u8>,
    /// How many more bytes are taken.
    room: usize,
    most: usize,
    fails: Vec<u64>,
    calls: u64,
    faults: u64,
}

impl Model for MemorySink {
    ghost use Rattle.std.specs.Prelude.{◌+◌, ◌<◌, ◌≤◌, vec_len, vec_capacity};
    ghost use Rattle.scev_outside.specs.Memory.{SinkState};

    ghost Value = { SinkState };

    ghost view = { λ s. record {
      taken = s.bytes.items;
      room = s.room;
      most = s.most;
      fails = s.fails.items;
      calls = s.calls;
      faults = s.faults;
    } };

    ghost invariant = { λ s. (vec_len s.bytes + s.room ≤ vec_capacity s.bytes) × (0 < s.most) };
}

impl MemorySink {
    /// A sink with room for `room` bytes, or an error where no memory was found for them. A write takes
    /// at most `piece` bytes, which is at least 1. The calls whose numbers stand in `fails`, counted from
    /// 0 to 2^64 - 1, fail.
    pub fn new(
        alloc: Global,
        room: usize,
        piece: usize,
        fails: Vec<u64>,
    ) -> Result<MemorySink, AllocError>
        requires { 0 < piece }
        ensures { IfOk result (λ sink. sink ≡ record {
          taken = [];
          room = room;
          most = piece;
          fails = fails.items;
          calls = 0;
          faults = 0;
        }) }
    {
        Ok(MemorySink {
            bytes: Vec::with_capacity(alloc, room)?,
            room,
            most: piece,
            fails,
            calls: 0,
            faults: 0,
        })
    }

    /// The bytes that it took.
    pub fn taken(&self) -> &[u8]
        ensures { result.now ≡ self.now.taken }
    {
        &self.bytes
    }

    /// How many calls failed. The count stays at 2^64 - 1 once there.
    pub fn faults(&self) -> u64
        ensures { result ≡ self.now.faults }
    {
        self.faults
    }
}

impl Sink for MemorySink {
    ghost taken = { λ s. Some s.taken };

    ghost faults = { λ s. s.faults };

    /// Takes as many bytes as it may and has room for. It fails exactly at the calls listed, and where a
    /// piece that isn't empty meets no room.
    fn write(&mut self, piece: &[u8]) -> Result<usize, Failed>
        ensures some { IfOk result (λ n. 0 < length piece.now → 0 < n) }
        ensures count { self.old.faults ≤ self.new.faults }

        ensures fails { IsErr result ↔ WriteFails self.old (length piece.now) }
        ensures given { IfOk result (λ n. n ≡ taken_count self.old (length piece.now)) }
        ensures ok { IfOk result (λ n. self.new ≡ after_write self.old (take n piece.now)) }
        ensures err { OnErr result (self.new ≡ after_failed_write self.old) }
    {
        let call = self.calls;
        self.calls = call.saturating_add(1);
        let count = self.most.min(self.room).min(piece.len());
        let is_full = count == 0 && !piece.is_empty();
        if is_full || is_listed(&self.fails, call) {
            self.faults = self.faults.saturating_add(1);
            return Err(Failed);
        }
        self.bytes.extend_from_slice(&piece[..count]).unwrap();
        self.room -= count;
        Ok(count)
    }
}
