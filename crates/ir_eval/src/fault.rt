//! Why a function isn't run.

ghost use Rattle.std.specs.Prelude.{◌≡◌};
ghost use Rattle.ir_eval.specs.declared.fault.EvalFault.TheVariants.{OutOfMemory};

use std::alloc::AllocError;
use thiserror::Error;

/// A function of a module isn't run.
#[derive(Debug, Drop, Error)]
pub enum EvalFault {
    /// No function with a body has the name.
    #[error("no function has the name")]
    NoFunction,
    /// There isn't one fitting argument for each parameter.
    #[error("bad arguments")]
    BadArgs,
    /// No memory was found.
    #[error("out of memory")]
    OutOfMemory,
}

impl From<AllocError> for EvalFault {
    ghost from_gives = { λ _ e. e ≡ OutOfMemory };

    fn from(_error: AllocError) -> EvalFault {
        EvalFault::OutOfMemory
    }
}
