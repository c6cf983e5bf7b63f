//! One block of memory.

ghost use Rattle.std.specs.Prelude.{◌≡◌, ◌+◌, ◌≤◌, ◌↔◌, length, take, drop, replicate};
ghost use Rattle.std.specs.Prelude.{IsTrue, IfOk};
ghost use Rattle.ir_memory.specs.Memory.{overwritten};
ghost use Rattle.ir_memory.specs.Spelling.{IsAccessWidth, FitsWidth};
ghost use Rattle.ir_memory.specs.Spelling.{byte_count, loaded_from, stored_as};

use crate::byte::Byte;
use crate::loaded::Loaded;
use crate::spelling::{read_value, write_value};
use scev_base::Width;
use std::alloc::{AllocError, Global};
use std::marker::Model;

/// A block of memory, a list of bytes. It takes two bytes of the machine for each of its own.
#[derive(Debug, Drop)]
pub(crate) struct Block {
    bytes: Vec<Byte>,
}

impl Model for Block {
    ghost use Rattle.std.specs.Prelude.{List};
    ghost use Rattle.ir_memory.specs.declared.byte.Byte.{Byte};

    ghost Value = { List Byte };

    ghost view = { λ b. b.bytes.items };
}

impl Block {
    /// A block of so many bytes that nothing wrote.
    pub(crate) fn new(alloc: Global, size: usize) -> Result<Block, AllocError>
        ensures { IfOk result (λ b. b ≡ replicate size Byte.Unwritten) }
    {
        let mut bytes = Vec::with_capacity(alloc, size)?;
        bytes.resize(size, Byte::Unwritten)?;
        Ok(Block { bytes })
    }

    /// A block of these bytes.
    pub(crate) fn of(bytes: Vec<Byte>) -> Block
        ensures { result ≡ bytes.items }
    {
        Block { bytes }
    }

    /// How many bytes it has.
    pub(crate) fn len(&self) -> usize
        ensures { result ≡ length self.now }
    {
        self.bytes.len()
    }

    /// Whether `count` bytes from `offset` on are all in it.
    pub(crate) fn holds(&self, offset: u64, count: u64) -> bool
        ensures { IsTrue result ↔ (offset + count ≤ length self.now) }
    {
        match offset.checked_add(count) {
            Some(end) => end <= self.bytes.len() as u64,
            None => false,
        }
    }

    /// What a load of the width gives.
    pub(crate) fn load(&self, offset: u64, w: Width, choice: u64) -> Loaded
        requires width { IsAccessWidth w.bits }
        requires inside { offset + byte_count w.bits ≤ length self.now }
        ensures value { let count = byte_count w.bits in
            result ≡ loaded_from (take count (drop offset self.now)) w.bits choice }
        ensures fits { FitsWidth w.bits result }
    {
        let start = offset as usize;
        let count = (w.get() / 8) as usize;
        read_value(&self.bytes[start..start + count], w, choice)
    }

    /// Stores the value at the width.
    pub(crate) fn store(&mut self, offset: u64, w: Width, value: Loaded)
        requires width { IsAccessWidth w.bits }
        requires inside { offset + byte_count w.bits ≤ length self.old }
        ensures { self.new ≡ overwritten self.old offset (stored_as (byte_count w.bits) value) }
    {
        let start = offset as usize;
        let count = (w.get() / 8) as usize;
        write_value(&mut self.bytes[start..start + count], value);
    }

    /// A block of its own with the same bytes.
    pub(crate) fn copy(&self, alloc: Global) -> Result<Block, AllocError>
        ensures { IfOk result (λ b. b ≡ self.now) }
    {
        Ok(Block {
            bytes: Vec::from_slice(alloc, &self.bytes)?,
        })
    }
}
