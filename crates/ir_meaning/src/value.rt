//! Values of registers.

/// What a register holds.
#[derive(Clone, Copy, Debug, PartialEq, Eq)]
pub enum Value {
    /// An integer of w bits, as a number below 2^w.
    Number(u64),
    /// A byte of a block of memory, or a place outside of it: the block's number, and an offset in bytes.
    Pointer { block: u64, offset: u64 },
    /// The null pointer.
    Null,
    /// Poison (LLVM Language Reference, "Poison Values").
    Poison,
}
