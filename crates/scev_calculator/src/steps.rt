//! Expressions, formed step by step on a stack.

use self::Step::{
    AtTurn, Bits, Defined, Leaf, Minimum, Number, Product, Rec, Sext, Sum, Trunc, Udiv, UminSeq,
    Unwrapped, Zext,
};
use crate::calculator::Calculator;
use crate::error::CalculatorError;
use scev_base::{ExprId, Width};
use scev_fold::MinKind;
use scev_sums::push;
use std::alloc::Global;

/// A step on a stack of expressions. What a step takes is the top of the stack, the right operand above the left one.
#[derive(Clone, Copy, Debug, PartialEq, Eq)]
pub enum Step {
    /// Numbers and registers have so many bits from here on.
    Bits(u32),
    /// Puts a number.
    Number(u64),
    /// Puts a register that is defined in no loop.
    Leaf(u64),
    /// Puts a register that is defined in the loop.
    Defined(u64),
    /// Takes two expressions, and puts their sum.
    Sum,
    /// Takes two expressions, and puts their product.
    Product,
    /// Takes so many expressions, and puts the recurrence with these parts.
    Rec(usize),
    /// Takes an expression, and puts so many bits of it.
    Trunc(u32),
    /// Takes an expression, and puts it without sign at so many bits.
    Zext(u32),
    /// Takes an expression, and puts it with sign at so many bits.
    Sext(u32),
    /// The same as the extension with or without sign, of what doesn't wrap.
    Unwrapped(bool, u32),
    /// Takes two expressions, and puts their quotient.
    Udiv,
    /// Takes two expressions, and puts their minimum or maximum.
    Minimum(MinKind),
    /// Takes two expressions, and puts their sequential minimum.
    UminSeq,
    /// Takes an expression and a count, and puts its value at that turn.
    AtTurn,
}

/// The width of so many bits.
fn bits(n: u32) -> Result<Width, CalculatorError> {
    Width::new(n).ok_or(CalculatorError::Unfit)
}

/// Takes the top of the stack.
fn top(stack: &mut Vec<ExprId>) -> Result<ExprId, CalculatorError> {
    stack.pop().ok_or(CalculatorError::Unfit)
}

/// Takes so many from the top of the stack.
fn topmost(
    alloc: Global,
    stack: &mut Vec<ExprId>,
    count: usize,
) -> Result<Vec<ExprId>, CalculatorError> {
    let rest = stack
        .len()
        .checked_sub(count)
        .ok_or(CalculatorError::Unfit)?;
    let taken = Vec::from_slice(alloc, &stack[rest..])?;
    stack.truncate(rest);
    Ok(taken)
}

impl Calculator {
    /// The top of the stack after these steps, whose numbers and registers have w bits unless they say otherwise.
    pub fn carry_out(&mut self, w: Width, steps: &[Step]) -> Result<ExprId, CalculatorError> {
        let mut stack = Vec::new(self.allocator());
        let mut width = w;
        for step in steps {
            if let Bits(n) = *step {
                width = bits(n)?;
            } else {
                let id = self.step(width, *step, &mut stack)?;
                push(&mut stack, id)?;
            }
        }
        top(&mut stack)
    }

    /// What a step puts.
    fn step(
        &mut self,
        w: Width,
        step: Step,
        stack: &mut Vec<ExprId>,
    ) -> Result<ExprId, CalculatorError> {
        match step {
            Number(n) => self.constant(w, n),
            Leaf(register) => self.leaf(w, register, false),
            Defined(register) => self.leaf(w, register, true),
            Rec(count) => {
                let parts = topmost(self.allocator(), stack, count)?;
                self.rec(&parts)
            }
            Trunc(_) | Zext(_) | Sext(_) | Unwrapped(_, _) => {
                let id = top(stack)?;
                self.cast(step, id)
            }
            _ => {
                let right = top(stack)?;
                let left = top(stack)?;
                self.joined(step, left, right)
            }
        }
    }

    /// What a step makes of one expression.
    fn cast(&mut self, step: Step, id: ExprId) -> Result<ExprId, CalculatorError> {
        match step {
            Trunc(n) => self.trunc(id, bits(n)?),
            Zext(n) => self.zext(id, bits(n)?, false),
            Sext(n) => self.sext(id, bits(n)?, false),
            Unwrapped(false, n) => self.zext(id, bits(n)?, true),
            Unwrapped(true, n) => self.sext(id, bits(n)?, true),
            _ => Err(CalculatorError::Unfit),
        }
    }

    /// What a step makes of two expressions.
    fn joined(
        &mut self,
        step: Step,
        left: ExprId,
        right: ExprId,
    ) -> Result<ExprId, CalculatorError> {
        match step {
            Sum => self.sum(left, right),
            Product => self.product(left, right),
            Udiv => self.udiv(left, right),
            Minimum(kind) => self.minimum(kind, left, right),
            UminSeq => self.umin_seq(left, right),
            AtTurn => self.at_turn(left, right),
            _ => Err(CalculatorError::Unfit),
        }
    }
}
