//! Why nothing is formed.

ghost use Rattle.std.specs.Prelude.{◌≡◌};
ghost use Rattle.scev_sums.specs.declared.error.FoldError.TheVariants.{OutOfMemory};
ghost use Rattle.scev_sums.specs.Errors.{error_of};

use scev_arena::Limit;
use std::alloc::AllocError;

/// Why an expression isn't formed. The limits are those of `scev_base::limits`; the first tree that is above one
/// decides.
#[derive(Clone, Copy, Debug, PartialEq, Eq)]
pub enum FoldError {
    /// A polynomial has more than `MONOMIALS` monomials, or one of more than `FACTORS` factors.
    TooWide,
    /// A chain of recurrences has a degree above `DEGREE`.
    TooHigh,
    /// A tree is deeper than `DEPTH` levels, or has more than `NODES` nodes.
    TooDeep,
    /// There is no memory for it.
    OutOfMemory,
}

impl FoldError {
    /// The error that says that this limit was met.
    pub(crate) fn of_limit(limit: Limit) -> FoldError
        ensures { result ≡ error_of limit }
    {
        match limit {
            Limit::TooWide => FoldError::TooWide,
            Limit::TooHigh => FoldError::TooHigh,
            Limit::TooDeep => FoldError::TooDeep,
        }
    }
}

impl From<AllocError> for FoldError {
    ghost from_gives = { λ _ error. error ≡ OutOfMemory };

    fn from(_error: AllocError) -> FoldError {
        FoldError::OutOfMemory
    }
}
