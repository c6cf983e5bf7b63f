//! A source and a sink that never fail.

ghost use Rattle.std.specs.Prelude.{◌≡◌, ◌<◌, ◌≤◌, ◌++◌, [], length, take, drop, min, Some, None, IfOk, IsOk};
ghost use Rattle.scev_outside.specs.Bytes.{Gave};

use crate::copying::copy_front;
use crate::failed::Failed;
use crate::sink::Sink;
use crate::source::Source;
use std::marker::Model;

/// A source over bytes in memory that never fails, and gives all that fits.
#[derive(Debug, Drop)]
pub struct SteadySource {
    bytes: Vec<u8>,
    /// How many of the bytes were given.
    given: usize,
}

impl Model for SteadySource {
    ghost use Rattle.std.specs.Prelude.{ℕ, ◌≤◌, List, drop, vec_len};

    ghost Value = { List ℕ };

    ghost view = { λ s. drop s.given s.bytes.items };

    ghost invariant = { λ s. s.given ≤ vec_len s.bytes };
}

impl SteadySource {
    /// A source of these bytes.
    pub fn new(bytes: Vec<u8>) -> SteadySource
        ensures { result ≡ bytes.items }
    {
        SteadySource { bytes, given: 0 }
    }
}

impl Source for SteadySource {
    ghost left = { λ s. Some s };

    ghost faults = { λ _. 0 };

    /// Gives as many bytes as are left and `buf` has room for.
    fn read(&mut self, buf: &mut [u8]) -> Result<usize, Failed>
        ensures within { IfOk result (λ n. n ≤ length buf.old) }
        ensures gave { IfOk result (λ n. Gave (Some self.old) (take n buf.new) (Some self.new)) }
        ensures end { IfOk result (λ n. n ≡ 0 → 0 < length buf.old → self.old ≡ []) }
        ensures steady { IsOk result }
        ensures given { IfOk result (λ n. n ≡ min (length self.old) (length buf.old)) }
        ensures filled { IfOk result (λ n. buf.new ≡ take n self.old ++ drop n buf.old) }
        ensures left { IfOk result (λ n. self.new ≡ drop n self.old) }
    {
        let count = copy_front(buf, &self.bytes[self.given..]);
        self.given += count;
        Ok(count)
    }
}

/// A sink that takes every piece whole and keeps nothing, so it tells no content. It never fails.
#[derive(Clone, Copy, Debug, Default)]
pub struct SteadySink;

impl SteadySink {
    /// A sink that keeps nothing.
    pub fn new() -> SteadySink {
        SteadySink
    }
}

impl Sink for SteadySink {
    ghost taken = { λ _. None };

    ghost faults = { λ _. 0 };

    /// Takes the piece whole.
    fn write(&mut self, piece: &[u8]) -> Result<usize, Failed>
        ensures steady { result ≡ Ok (length piece.now) }
    {
        Ok(piece.len())
    }
}
