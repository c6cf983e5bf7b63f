//! Expressions in great numbers.

use scev_base::{ExprId, Width};
use scev_calculator::{Calculator, CalculatorError};
use std::alloc::Global;

/// The width of all of them.
const WORD: Width = Width { bits: 32 };

/// How many sums are formed.
const SUMS: u64 = 100_000;

/// How many products are formed.
const PRODUCTS: u64 = 1_000;

/// How many small operations are made.
const SMALL: u64 = 1_000_000;

/// `{n,+,step}` of the loop.
fn affine(calculator: &mut Calculator, n: u64, step: u64) -> Result<ExprId, CalculatorError> {
    let first = calculator.constant(WORD, n)?;
    let second = calculator.constant(WORD, step)?;
    calculator.rec(&[first, second])
}

/// A recurrence of five parts, numbers from this one on.
fn of_degree_four(calculator: &mut Calculator, n: u64) -> Result<ExprId, CalculatorError> {
    let a = calculator.constant(WORD, n)?;
    let b = calculator.constant(WORD, n.wrapping_add(1))?;
    let c = calculator.constant(WORD, n.wrapping_add(2))?;
    let d = calculator.constant(WORD, n.wrapping_add(3))?;
    let last = calculator.constant(WORD, 1)?;
    calculator.rec(&[a, b, c, d, last])
}

/// Sums of two affine recurrences each, all different, in one arena.
pub(crate) fn sums(alloc: Global) -> Result<u64, CalculatorError> {
    let mut calculator = Calculator::new(alloc)?;
    for n in 0..SUMS {
        let left = affine(&mut calculator, n, 1)?;
        let right = affine(&mut calculator, n, 2)?;
        calculator.sum(left, right)?;
    }
    Ok(SUMS)
}

/// Products of two recurrences of degree 4 each, all different, in one arena.
pub(crate) fn products(alloc: Global) -> Result<u64, CalculatorError> {
    let mut calculator = Calculator::new(alloc)?;
    for n in 0..PRODUCTS {
        let left = of_degree_four(&mut calculator, n)?;
        let right = of_degree_four(&mut calculator, n.wrapping_add(5))?;
        calculator.product(left, right)?;
    }
    Ok(PRODUCTS)
}

/// One register after another, with a number more each time: an operation on a few nodes.
pub(crate) fn small(alloc: Global) -> Result<u64, CalculatorError> {
    let mut calculator = Calculator::new(alloc)?;
    let register = calculator.leaf(WORD, 0, false)?;
    let mut sum = register;
    for n in 0..SMALL {
        let number = calculator.constant(WORD, n % 1_000)?;
        sum = calculator.sum(register, number)?;
    }
    calculator.number(sum)?;
    Ok(SMALL)
}
