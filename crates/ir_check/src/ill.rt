//! What is refused.

ghost use Rattle.std.specs.Prelude.{◌≡◌};
ghost use Rattle.ir_check.specs.declared.ill.Ill.TheVariants.{OutOfMemory};

use ir_model::{Place, Rule};
use std::alloc::AllocError;
use thiserror::Error;

/// A module or a function isn't accepted.
#[derive(Debug, Drop, Error)]
pub enum Ill {
    /// The first rule that is broken, and the first place in text order at which it is.
    #[error("a rule of well-formedness is broken")]
    Broken { rule: Rule, place: Place },
    /// No memory was found.
    #[error("out of memory")]
    OutOfMemory,
}

impl From<AllocError> for Ill {
    ghost from_gives = { λ _ error. error ≡ OutOfMemory };

    fn from(_error: AllocError) -> Ill {
        Ill::OutOfMemory
    }
}
