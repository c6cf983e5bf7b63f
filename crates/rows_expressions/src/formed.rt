//! Expressions, each formed by steps and written.

use scev_base::Width;
use scev_calculator::{Calculator, CalculatorError, Step};
use std::alloc::Global;

const WORD: Width = Width { bits: 32 };

/// The text of what the steps form at 32 bits.
fn text_of(alloc: Global, steps: &[Step]) -> Result<Vec<u8>, CalculatorError> {
    let mut calculator = Calculator::new(alloc)?;
    let id = calculator.carry_out(WORD, steps)?;
    calculator.text(id)
}

/// Whether the steps form at 32 bits what is written so.
pub(crate) fn forms(alloc: Global, steps: &[Step], text: &str) -> Result<bool, CalculatorError> {
    let formed = text_of(alloc, steps)?;
    Ok(formed.as_slice() == text.as_bytes())
}

/// Why the steps form nothing at 32 bits. None where they form something.
pub(crate) fn error_of(alloc: Global, steps: &[Step]) -> Option<CalculatorError> {
    match text_of(alloc, steps) {
        Ok(_) => None,
        Err(error) => Some(error),
    }
}
