//! A row of bits.

ghost use Rattle.std.specs.Prelude.{◌≡◌, ◌<◌, ℕ, true, false, ◌||◌, ◌&&◌, length, replicate, slice_set, slice_index_or, IfOk};

use std::alloc::{AllocError, Global};
use std::marker::Model;

/// A row of so many bits, 64 to a word. Contracts see the list of its bits, from the lowest bit of the first
/// word on.
#[derive(Drop)]
pub struct BitRow {
    words: Vec<u64>,
    count: usize,
}

impl Model for BitRow {
    ghost use Rattle.std.specs.Prelude.{◌≡◌, List, Bool, vec_len};
    ghost use Rattle.std.specs.Int.{div_ceil};
    ghost use Rattle.bit_rows.specs.Bits.{bits_of};

    ghost Value = { List Bool };

    ghost view = { λ row. bits_of row.words.items row.count };

    ghost invariant = { λ row. vec_len row.words ≡ div_ceil row.count 64 };
}

impl BitRow {
    /// A row of `count` bits, each of them false, in time linear in their number. The error comes only where
    /// there is no memory for the words.
    pub fn new(alloc: Global, count: usize) -> Result<BitRow, AllocError>
        ensures { IfOk result (λ row. row ≡ replicate count false) }
    {
        let words = vec![in alloc; 0u64; count.div_ceil(64)]?;
        Ok(BitRow { words, count })
    }

    /// How many bits there are. Constant time.
    pub fn len(&self) -> usize
        ensures { result ≡ length self.now }
    {
        self.count
    }

    /// The bit at a place, and false past the end. Constant time; no memory.
    pub fn get(&self, at: usize) -> bool
        ensures { result ≡ slice_index_or self.now at false }
    {
        at < self.count && (self.words[at / 64] >> (at % 64)) & 1 == 1
    }

    /// Makes the bit at a place of the row true. Constant time; no memory.
    pub fn set(&mut self, at: usize)
        requires { at < length self.old }
        ensures { self.new ≡ slice_set self.old at true }
    {
        let word = self.words[at / 64];
        self.words[at / 64] = word | (1 << (at % 64));
    }

    /// Makes the bit at a place of the row false. Constant time; no memory.
    pub fn clear(&mut self, at: usize)
        requires { at < length self.old }
        ensures { self.new ≡ slice_set self.old at false }
    {
        let word = self.words[at / 64];
        self.words[at / 64] = word & !(1 << (at % 64));
    }

    /// Makes each bit true that is true in the other row, which has as many bits: 64 at a time, in linear time.
    /// No memory.
    pub fn join(&mut self, other: &BitRow)
        requires { length self.old ≡ length other.now }
        ensures count { length self.new ≡ length self.old }
        ensures bits { (k : ℕ) → slice_index_or self.new k false
            ≡ (slice_index_or self.old k false || slice_index_or other.now k false) }
    {
        for k in 0..self.words.len() {
            self.words[k] |= other.words[k];
        }
    }

    /// Makes each bit false that is false in the other row, which has as many bits: 64 at a time, in linear time.
    /// No memory.
    pub fn meet(&mut self, other: &BitRow)
        requires { length self.old ≡ length other.now }
        ensures count { length self.new ≡ length self.old }
        ensures bits { (k : ℕ) → slice_index_or self.new k false
            ≡ (slice_index_or self.old k false && slice_index_or other.now k false) }
    {
        for k in 0..self.words.len() {
            self.words[k] &= other.words[k];
        }
    }

    /// A row of the same bits, in time linear in their number. The error comes only where there is no memory for
    /// the words.
    pub fn copy(&self, alloc: Global) -> Result<BitRow, AllocError>
        ensures { IfOk result (λ copy. copy ≡ self.now) }
    {
        let words = Vec::from_slice(alloc, self.words.as_slice())?;
        Ok(BitRow {
            words,
            count: self.count,
        })
    }
}
