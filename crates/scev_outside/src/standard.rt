//! Standard input, output and error: the edge to the world, whose content no proof tells.

ghost use Rattle.std.specs.Prelude.{◌≡◌, ◌<◌, ◌≤◌, length, None, IfOk, OnOk, OnErr};
ghost use Rattle.std.specs.Io.KnownBytes.{ReadConsumes, WriteAppends};
ghost use Rattle.scev_outside.specs.Faults.{next_count};

use crate::failed::Failed;
use crate::sink::Sink;
use crate::source::Source;
use std::io::{Read, Stderr, Stdin, Stdout, Write};
use std::marker::Model;

/// Standard input. Each read is one call of the system, and a read that fails takes no byte.
#[derive(Debug, Drop)]
pub struct StdSource {
    stdin: Stdin,
    faults: u64,
}

impl Model for StdSource {
    ghost use Rattle.std.specs.Prelude.{ℕ};

    ghost Value = { ℕ };

    ghost view = { λ s. s.faults };
}

impl StdSource {
    /// Standard input, with no fault so far.
    pub fn new(stdin: Stdin) -> StdSource
        ensures { result ≡ 0 }
    {
        StdSource { stdin, faults: 0 }
    }

    /// How many reads failed. The count stays at 2^64 - 1 once there.
    pub fn faults(&self) -> u64
        ensures { result ≡ self.now }
    {
        self.faults
    }
}

impl Source for StdSource {
    ghost left = { λ _. None };

    ghost faults = { λ faults. faults };

    /// One call of the system. It counts a fault exactly where it fails.
    fn read(&mut self, buf: &mut [u8]) -> Result<usize, Failed>
        ensures within { IfOk result (λ n. n ≤ length buf.old) }
        ensures ok { OnOk result (self.new ≡ self.old) }
        ensures err { OnErr result (self.new ≡ next_count self.old) }
        ensures count { self.old ≤ self.new }
    {
        read_once(&mut self.stdin, &mut self.faults, buf)
    }
}

/// Standard output. Each write is one call of the system.
#[derive(Debug, Drop)]
pub struct StdSink {
    stdout: Stdout,
    faults: u64,
}

impl Model for StdSink {
    ghost use Rattle.std.specs.Prelude.{ℕ};

    ghost Value = { ℕ };

    ghost view = { λ s. s.faults };
}

impl StdSink {
    /// Standard output, with no fault so far.
    pub fn new(stdout: Stdout) -> StdSink
        ensures { result ≡ 0 }
    {
        StdSink { stdout, faults: 0 }
    }

    /// How many writes failed. The count stays at 2^64 - 1 once there.
    pub fn faults(&self) -> u64
        ensures { result ≡ self.now }
    {
        self.faults
    }
}

impl Sink for StdSink {
    ghost taken = { λ _. None };

    ghost faults = { λ faults. faults };

    /// One call of the system. It counts a fault exactly where it fails.
    fn write(&mut self, piece: &[u8]) -> Result<usize, Failed>
        ensures within { IfOk result (λ n. n ≤ length piece.now) }
        ensures some { IfOk result (λ n. 0 < length piece.now → 0 < n) }
        ensures ok { OnOk result (self.new ≡ self.old) }
        ensures err { OnErr result (self.new ≡ next_count self.old) }
        ensures count { self.old ≤ self.new }
    {
        write_once(&mut self.stdout, &mut self.faults, piece)
    }
}

/// Standard error. Each write is one call of the system.
#[derive(Debug, Drop)]
pub struct StdErr {
    stderr: Stderr,
    faults: u64,
}

impl Model for StdErr {
    ghost use Rattle.std.specs.Prelude.{ℕ};

    ghost Value = { ℕ };

    ghost view = { λ s. s.faults };
}

impl StdErr {
    /// Standard error, with no fault so far.
    pub fn new(stderr: Stderr) -> StdErr
        ensures { result ≡ 0 }
    {
        StdErr { stderr, faults: 0 }
    }

    /// How many writes failed. The count stays at 2^64 - 1 once there.
    pub fn faults(&self) -> u64
        ensures { result ≡ self.now }
    {
        self.faults
    }
}

impl Sink for StdErr {
    ghost taken = { λ _. None };

    ghost faults = { λ faults. faults };

    /// One call of the system. It counts a fault exactly where it fails.
    fn write(&mut self, piece: &[u8]) -> Result<usize, Failed>
        ensures within { IfOk result (λ n. n ≤ length piece.now) }
        ensures some { IfOk result (λ n. 0 < length piece.now → 0 < n) }
        ensures ok { OnOk result (self.new ≡ self.old) }
        ensures err { OnErr result (self.new ≡ next_count self.old) }
        ensures count { self.old ≤ self.new }
    {
        write_once(&mut self.stderr, &mut self.faults, piece)
    }
}

/// One read. An error, also of a call that a signal cut short, is a fault, and takes no byte.
fn read_once<R: Read>(reader: &mut R, faults: &mut u64, buf: &mut [u8]) -> Result<usize, Failed>
    ensures within { IfOk result (λ n. n ≤ length buf.new) }
    ensures bytes { ReadConsumes (R.remaining reader.old) (R.remaining reader.new) result buf.new }
    ensures ok { OnOk result (faults.new ≡ faults.old) }
    ensures err { OnErr result (faults.new ≡ next_count faults.old) }
    ensures count { faults.old ≤ faults.new }
{
    match reader.read(buf) {
        Ok(count) => Ok(count),
        Err(_) => Err(fault(faults)),
    }
}

/// One write. An error, also of a call that a signal cut short, is a fault, and so is a write that takes
/// nothing of a piece that isn't empty.
fn write_once<W: Write>(writer: &mut W, faults: &mut u64, piece: &[u8]) -> Result<usize, Failed>
    ensures within { IfOk result (λ n. n ≤ length piece.now) }
    ensures some { IfOk result (λ n. 0 < length piece.now → 0 < n) }
    ensures bytes { WriteAppends (W.contents writer.old) (W.contents writer.new) result piece.now }
    ensures ok { OnOk result (faults.new ≡ faults.old) }
    ensures err { OnErr result (faults.new ≡ next_count faults.old) }
    ensures count { faults.old ≤ faults.new }
{
    match writer.write(piece) {
        Ok(count) if count > 0 || piece.is_empty() => Ok(count),
        _ => Err(fault(faults)),
    }
}

/// Counts a fault.
fn fault(faults: &mut u64) -> Failed
    ensures next { faults.new ≡ next_count faults.old }
    ensures count { faults.old ≤ faults.new }
{
    *faults = faults.saturating_add(1);
    Failed
}
