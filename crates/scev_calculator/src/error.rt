//! Why a calculator answers nothing.

use scev_fold::FoldError;
use std::alloc::AllocError;

/// Why a calculator answers nothing.
#[derive(Clone, Copy, Debug, PartialEq, Eq)]
pub enum CalculatorError {
    /// The call has a condition that doesn't hold: a place holds no tree, widths differ, or too few expressions are
    /// left.
    Unfit,
    /// The expression has no value at the turn.
    Hindered,
    /// The expression isn't formed.
    Refused(FoldError),
}

impl From<FoldError> for CalculatorError {
    fn from(error: FoldError) -> CalculatorError {
        CalculatorError::Refused(error)
    }
}

impl From<AllocError> for CalculatorError {
    fn from(_error: AllocError) -> CalculatorError {
        CalculatorError::Refused(FoldError::OutOfMemory)
    }
}
