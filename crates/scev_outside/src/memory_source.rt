//! A source over bytes in memory, for tests.

ghost use Rattle.std.specs.Prelude.{◌≡◌, ◌<◌, ◌≤◌, ◌↔◌, [], ◌++◌, length, take, drop, Some, IfOk, OnErr, IsErr, Contains};
ghost use Rattle.scev_outside.specs.Bytes.{Gave};
ghost use Rattle.scev_outside.specs.Memory.{given_count, after_read, after_failed_read};

use crate::copying::copy_front;
use crate::failed::Failed;
use crate::listed::is_listed;
use crate::source::Source;
use std::marker::Model;

/// A source over bytes in memory, for tests: it gives them in pieces, and fails where it is told to.
#[derive(Debug, Drop)]
pub struct MemorySource {
    bytes: Vec<u8>,
    /// How many of the bytes were given.
    given: usize,
    most: usize,
    fails: Vec<u64>,
    calls: u64,
    faults: u64,
}

impl Model for MemorySource {
    ghost use Rattle.std.specs.Prelude.{◌<◌, ◌≤◌, drop, vec_len};
    ghost use Rattle.scev_outside.specs.Memory.{SourceState};

    ghost Value = { SourceState };

    ghost view = { λ s. record {
      left = drop s.given s.bytes.items;
      most = s.most;
      fails = s.fails.items;
      calls = s.calls;
      faults = s.faults;
    } };

    ghost invariant = { λ s. (s.given ≤ vec_len s.bytes) × (0 < s.most) };
}

impl MemorySource {
    /// A source of these bytes. A read gives at most `piece` of them, which is at least 1. The calls
    /// whose numbers stand in `fails`, counted from 0 to 2^64 - 1, fail.
    pub fn new(bytes: Vec<u8>, piece: usize, fails: Vec<u64>) -> MemorySource
        requires { 0 < piece }
        ensures { result ≡ record {
          left = bytes.items;
          most = piece;
          fails = fails.items;
          calls = 0;
          faults = 0;
        } }
    {
        MemorySource {
            bytes,
            given: 0,
            most: piece,
            fails,
            calls: 0,
            faults: 0,
        }
    }

    /// The bytes that are left.
    pub fn left(&self) -> &[u8]
        ensures { result.now ≡ self.now.left }
    {
        &self.bytes[self.given..]
    }

    /// How many calls failed. The count stays at 2^64 - 1 once there.
    pub fn faults(&self) -> u64
        ensures { result ≡ self.now.faults }
    {
        self.faults
    }
}

impl Source for MemorySource {
    ghost left = { λ s. Some s.left };

    ghost faults = { λ s. s.faults };

    /// Gives as many bytes as it may and `buf` has room for. It fails exactly at the calls listed, and
    /// leaves `buf` as it was there.
    fn read(&mut self, buf: &mut [u8]) -> Result<usize, Failed>
        ensures gave { IfOk result (λ n.
            Gave (Some self.old.left) (take n buf.new) (Some self.new.left)) }
        ensures end { IfOk result (λ n. n ≡ 0 → 0 < length buf.old → self.old.left ≡ []) }
        ensures count { self.old.faults ≤ self.new.faults }

        ensures fails { IsErr result ↔ Contains self.old.fails self.old.calls }
        ensures given { IfOk result (λ n. n ≡ given_count self.old (length buf.old)) }
        ensures filled { IfOk result (λ n. buf.new ≡ take n self.old.left ++ drop n buf.old) }
        ensures ok { IfOk result (λ n. self.new ≡ after_read self.old n) }
        ensures err { OnErr result (self.new ≡ after_failed_read self.old) }
        ensures untouched { OnErr result (buf.new ≡ buf.old) }
    {
        let call = self.calls;
        self.calls = call.saturating_add(1);
        if is_listed(&self.fails, call) {
            self.faults = self.faults.saturating_add(1);
            return Err(Failed);
        }
        let ready = self.most.min(self.bytes.len() - self.given);
        let count = copy_front(buf, &self.bytes[self.given..self.given + ready]);
        self.given += count;
        Ok(count)
    }
}
