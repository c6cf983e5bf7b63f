//! Values.

ghost use Rattle.std.specs.Prelude.{◌≡◌};
ghost use Rattle.value_view.specs.Givens.{bare_row};

use crate::given::Given;
use scev_base::BlockId;

/// A value: the block in which it is defined, None where no instruction defines it; how many bits it has, 0 where it is
/// no integer; what gives it; and the flags of the `add`, `sub`, `mul` or `shl` that does.
#[derive(Clone, Copy, Debug, PartialEq, Eq)]
pub struct Row {
    pub block: Option<BlockId>,
    pub bits: u32,
    pub given: Given,
    pub nuw: bool,
    pub nsw: bool,
}

impl Row {
    /// A value of so many bits that no instruction defines. No memory.
    pub fn bare(bits: u32) -> Row
        ensures { result ≡ bare_row bits }
    {
        Row {
            block: None,
            bits,
            given: Given::Opaque,
            nuw: false,
            nsw: false,
        }
    }
}
