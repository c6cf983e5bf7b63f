//! Types of values, and texts.

ghost use Rattle.std.specs.Prelude.{◌≡◌, IfOk};

use sqlite_items::Items;
use std::alloc::{AllocError, Global};

/// Bytes of a text: a name without its sigil, or passed-on words as they are printed.
pub type Text = Items<u8>;

/// A type (LLVM Language Reference, "Type System"), as far as the profile goes.
#[derive(Drop)]
pub enum IrType {
    /// `void`: no value.
    Void,
    /// `iN`, of so many bits. The reader takes every width below 2^32; the checks want 1 to 64.
    Int(u32),
    /// `ptr`: an opaque pointer of 64 bits.
    Ptr,
    /// `[ d x .. [ d x iN ] .. ]`: the dimensions, outermost first, and the width of the elements in bits.
    Array(Items<u64>, u32),
}

impl IrType {
    /// A copy of the type.
    pub fn copy(&self, alloc: Global) -> Result<IrType, AllocError>
        ensures { IfOk result (λ copy. copy ≡ self.now) }
    {
        match self {
            IrType::Void => Ok(IrType::Void),
            IrType::Int(width) => Ok(IrType::Int(*width)),
            IrType::Ptr => Ok(IrType::Ptr),
            IrType::Array(dims, width) => {
                let dims = Items::from_slice(alloc, dims.as_slice())?;
                Ok(IrType::Array(dims, *width))
            }
        }
    }
}
