//! Which loads and stores may be made.

ghost use Rattle.std.specs.Prelude.{◌↔◌, IsTrue};
ghost use Rattle.ir_memory.specs.Spelling.{IsAccessWidth};

use scev_base::Width;

/// Why a load or a store can't be made.
#[derive(Clone, Copy, Debug, PartialEq, Eq)]
pub enum Access {
    /// A byte of the access isn't in the block, or there is no such block.
    OutOfBlock,
}

/// Whether loads and stores may have the width: 8, 16, 32 or 64 bits.
pub fn is_access_width(w: Width) -> bool
    ensures { IsTrue result ↔ IsAccessWidth w.bits }
{
    matches!(w.get(), 8 | 16 | 32 | 64)
}
