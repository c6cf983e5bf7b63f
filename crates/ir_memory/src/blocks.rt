//! The memory of a program.

ghost use Rattle.std.specs.Prelude.{◌≡◌, ◌↔◌, ◌++◌, [], ◌∷◌, true, length, slice_get};
ghost use Rattle.std.specs.Prelude.{IsTrue, IsOk, IfOk, OnOk, OnErr};
ghost use Rattle.std.specs.Option.{option_map};
ghost use Rattle.ir_memory.specs.Spelling.{IsAccessWidth, byte_count, FitsWidth};
ghost use Rattle.std.specs.List.{list_all};
ghost use Rattle.ir_memory.specs.Memory.{is_byte, InBlock, are_bytes, same_sizes, with_block, load_of, store_of};

use crate::access::Access;
use crate::block::Block;
use crate::byte::Byte;
use crate::loaded::Loaded;
use scev_base::Width;
use std::alloc::{AllocError, Global};
use std::marker::Model;

/// The memory of a program: a list of blocks, each a list of bytes. A block's number is its position,
/// from 0. No block moves or goes away. Each byte takes two bytes of the machine.
#[derive(Debug, Drop)]
pub struct Blocks {
    blocks: Vec<Block>,
}

impl Model for Blocks {
    ghost use Rattle.std.specs.Prelude.{◌≡◌, true};
    ghost use Rattle.ir_memory.specs.Memory.{Memory, are_bytes};

    ghost Value = { Memory };

    ghost view = { λ m. m.blocks.items };

    ghost invariant = { λ m. are_bytes m.blocks.items ≡ true };
}

impl Blocks {
    /// A memory with no block.
    pub fn new(alloc: Global) -> Blocks
        ensures { result ≡ [] }
    {
        Blocks {
            blocks: Vec::new(alloc),
        }
    }

    /// How many blocks there are.
    pub fn len(&self) -> usize
        ensures { result ≡ length self.now }
    {
        self.blocks.len()
    }

    /// Whether there is no block.
    pub fn is_empty(&self) -> bool
        ensures { IsTrue result ↔ (self.now ≡ []) }
    {
        self.blocks.is_empty()
    }

    /// How many bytes the block has. It is None exactly where there is no such block.
    pub fn size(&self, block: u64) -> Option<u64>
        ensures { result ≡ option_map length (slice_get self.now block) }
    {
        let found = self.blocks.get(block as usize)?;
        Some(found.len() as u64)
    }

    /// Adds a last block of `size` bytes, in which nothing is written, and answers its number. Where no
    /// memory is found for it, as for a size that the machine can't address, nothing changes.
    pub fn add_block(&mut self, size: u64) -> Result<u64, AllocError>
        ensures number { IfOk result (λ number. number ≡ length self.old) }
        ensures ok { OnOk result (self.new ≡ with_block self.old size) }
        ensures err { OnErr result (self.new ≡ self.old) }
    {
        let number = self.blocks.len() as u64;
        let block = Block::new(*self.blocks.allocator(), size as usize)?;
        self.blocks.push(block)?;
        Ok(number)
    }

    /// Adds a last block of these bytes, and answers its number. Where no memory is found for it nothing changes.
    pub fn add_bytes(&mut self, bytes: Vec<Byte>) -> Result<u64, AllocError>
        requires fit { list_all is_byte bytes.items ≡ true }
        ensures number { IfOk result (λ number. number ≡ length self.old) }
        ensures ok { OnOk result (self.new ≡ self.old ++ bytes.items ∷ []) }
        ensures err { OnErr result (self.new ≡ self.old) }
    {
        let number = self.blocks.len() as u64;
        self.blocks.push(Block::of(bytes))?;
        Ok(number)
    }

    /// Loads a value of the width at a byte of the block: poison if one of its bytes is poison; else, if
    /// nothing was stored in one of them, the choice modulo 2 to the width; else the number that its bytes
    /// spell, the lowest byte first. It fails exactly where a byte of the access isn't in the block, or
    /// there is no such block.
    pub fn load(&self, block: u64, offset: u64, w: Width, choice: u64) -> Result<Loaded, Access>
        requires { IsAccessWidth w.bits }
        ensures in_block { IsOk result ↔ InBlock self.now block offset (byte_count w.bits) }
        ensures value { IfOk result (λ value. value ≡ load_of self.now block offset w.bits choice) }
        ensures fits { IfOk result (FitsWidth w.bits) }
    {
        if !self.holds(block, offset, w) {
            return Err(Access::OutOfBlock);
        }
        let found = &self.blocks[block as usize];
        Ok(found.load(offset, w, choice))
    }

    /// Stores a value of the width at a byte of the block: the number's bytes, the lowest first, or poison
    /// in each. No other byte changes. It fails exactly where a byte of the access isn't in the block, or
    /// there is no such block, and then nothing changes.
    pub fn store(&mut self, block: u64, offset: u64, w: Width, value: Loaded) -> Result<(), Access>
        requires width { IsAccessWidth w.bits }
        requires fits { FitsWidth w.bits value }
        ensures in_block { IsOk result ↔ InBlock self.old block offset (byte_count w.bits) }
        ensures ok { OnOk result (self.new ≡ store_of self.old block offset w.bits value) }
        ensures err { OnErr result (self.new ≡ self.old) }
    {
        if !self.holds(block, offset, w) {
            return Err(Access::OutOfBlock);
        }
        let found = &mut self.blocks[block as usize];
        found.store(offset, w, value);
        Ok(())
    }

    /// Each byte is a number below 256, poison or unwritten, as its type says.
    pub fn bytes_fit(&self)
        ensures { are_bytes self.now ≡ true }
    {
        let _ = &self.blocks;
    }

    /// Whether the two have blocks of the same sizes.
    pub fn has_sizes_of(&self, other: &Blocks) -> bool
        ensures { result ≡ same_sizes other.now self.now }
    {
        if self.len() != other.len() {
            return false;
        }
        for i in 0..self.len() {
            if self.blocks[i].len() != other.blocks[i].len() {
                return false;
            }
        }
        true
    }

    /// A memory of its own with the same blocks.
    pub fn copy(&self, alloc: Global) -> Result<Blocks, AllocError>
        ensures { IfOk result (λ copy. copy ≡ self.now) }
    {
        let mut blocks = Vec::with_capacity(alloc, self.blocks.len())?;
        for block in &self.blocks {
            blocks.push(block.copy(alloc)?)?;
        }
        Ok(Blocks { blocks })
    }

    /// Whether there is such a block, and each byte of an access of the width is in it.
    fn holds(&self, block: u64, offset: u64, w: Width) -> bool
        ensures { IsTrue result ↔ InBlock self.now block offset (byte_count w.bits) }
    {
        match self.blocks.get(block as usize) {
            Some(found) => found.holds(offset, u64::from(w.get() / 8)),
            None => false,
        }
    }
}
