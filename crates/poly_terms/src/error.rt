//! Why there is no sum and no product.

ghost use Rattle.std.specs.Prelude.{◌≡◌};
ghost use Rattle.poly_terms.specs.declared.error.TermError.TheVariants.{OutOfMemory};

use std::alloc::AllocError;

/// Why there is no sum or no product of two polynomials.
#[derive(Clone, Copy, Debug, PartialEq, Eq)]
pub enum TermError {
    /// It has more monomials than `scev_base::limits::MONOMIALS`, or a monomial of more factors than
    /// `scev_base::limits::FACTORS`. Monomials whose coefficients cancel modulo 2^w don't count.
    TooWide,
    /// There is no memory for it.
    OutOfMemory,
}

impl From<AllocError> for TermError {
    ghost from_gives = { λ _ error. error ≡ OutOfMemory };

    fn from(_error: AllocError) -> TermError {
        TermError::OutOfMemory
    }
}
