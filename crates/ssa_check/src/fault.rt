//! What is refused.

ghost use Rattle.std.specs.Prelude.{◌≡◌};
ghost use Rattle.ssa_check.specs.declared.fault.SsaFault.TheVariants.{OutOfMemory};

use scev_base::{BlockId, ValueId};
use std::alloc::AllocError;
use thiserror::Error;

/// The uses of a function aren't accepted.
#[derive(Debug, Drop, Error)]
pub enum SsaFault {
    /// A walk from the entry reaches a use of the value, by an instruction of the block, and hasn't passed its
    /// definition.
    #[error("a value is used before its definition")]
    UseBeforeDef { value: ValueId, block: BlockId },
    /// No memory was found.
    #[error("out of memory")]
    OutOfMemory,
}

impl From<AllocError> for SsaFault {
    ghost from_gives = { λ _ e. e ≡ OutOfMemory };

    fn from(_error: AllocError) -> SsaFault {
        SsaFault::OutOfMemory
    }
}
