//! Expressions, formed by calls that have no conditions.

use crate::error::CalculatorError;
use crate::sheet::sheet;
use crate::tested::{alike, at_least, at_most, tree, trees_of};
use ir_printer::Names;
use scev_arena::Arena;
use scev_base::{BlockId, ExprId, LoopId, LoopNest, ValueId, Width};
use scev_fold::{
    MinKind, at_turn, make_min, make_product, make_rec, make_sext, make_sum, make_trunc, make_udiv,
    make_umin_seq, make_zext,
};
use scev_sums::{constant, made};
use scev_text::expr_text;
use scev_tree::Kind;
use scev_walk::{number_of, width};
use sqlite_items::Items;
use std::alloc::{AllocError, Global};

/// The loop of the nest.
const LOOP: LoopId = LoopId(0);

/// Expressions of a nest of one loop, `%l`, over registers `%a` to `%z`.
#[derive(Drop)]
pub struct Calculator {
    alloc: Global,
    arena: Arena,
    nest: LoopNest,
}

/// One loop, in no other.
fn one_loop(alloc: Global) -> Result<LoopNest, AllocError> {
    let parents = Items::from_slice(alloc, &[None])?;
    Ok(LoopNest::new(parents))
}

impl Calculator {
    /// No expressions.
    pub fn new(alloc: Global) -> Result<Calculator, AllocError> {
        Ok(Calculator {
            alloc,
            arena: Arena::new(alloc),
            nest: one_loop(alloc)?,
        })
    }

    /// Where its memory comes from.
    pub(crate) fn allocator(&self) -> Global {
        self.alloc
    }

    /// The number modulo 2^w.
    pub fn constant(&mut self, w: Width, n: u64) -> Result<ExprId, CalculatorError> {
        Ok(constant(self.alloc, &mut self.arena, w, n)?)
    }

    /// The register of this number, defined in the loop or in none.
    pub fn leaf(
        &mut self,
        w: Width,
        register: u64,
        is_defined_in_loop: bool,
    ) -> Result<ExprId, CalculatorError> {
        let home = if is_defined_in_loop { Some(LOOP) } else { None };
        let kind = Kind::Leaf(ValueId(register), home);
        let parts = Items::new(self.alloc);
        Ok(made(self.alloc, &mut self.arena, kind, w, parts)?)
    }

    /// The sum of two expressions.
    pub fn sum(&mut self, left: ExprId, right: ExprId) -> Result<ExprId, CalculatorError> {
        alike(&self.arena, left, right)?;
        Ok(make_sum(self.alloc, &mut self.arena, &self.nest, left, right)?)
    }

    /// The product of two expressions.
    pub fn product(&mut self, left: ExprId, right: ExprId) -> Result<ExprId, CalculatorError> {
        alike(&self.arena, left, right)?;
        Ok(make_product(self.alloc, &mut self.arena, &self.nest, left, right)?)
    }

    /// The recurrence of the loop with these parts.
    pub fn rec(&mut self, parts: &[ExprId]) -> Result<ExprId, CalculatorError> {
        let first = *parts.first().ok_or(CalculatorError::Unfit)?;
        tree(&self.arena, first)?;
        let w = width(&self.arena, first);
        trees_of(&self.arena, parts, w)?;
        Ok(make_rec(self.alloc, &mut self.arena, w, LOOP, parts)?)
    }

    /// The lowest bits.
    pub fn trunc(&mut self, id: ExprId, to: Width) -> Result<ExprId, CalculatorError> {
        at_least(&self.arena, id, to)?;
        Ok(make_trunc(self.alloc, &mut self.arena, &self.nest, id, to)?)
    }

    /// The extension without sign.
    pub fn zext(
        &mut self,
        id: ExprId,
        to: Width,
        no_wrap: bool,
    ) -> Result<ExprId, CalculatorError> {
        at_most(&self.arena, id, to)?;
        Ok(make_zext(self.alloc, &mut self.arena, &self.nest, id, to, no_wrap)?)
    }

    /// The extension with sign.
    pub fn sext(
        &mut self,
        id: ExprId,
        to: Width,
        no_wrap: bool,
    ) -> Result<ExprId, CalculatorError> {
        at_most(&self.arena, id, to)?;
        Ok(make_sext(self.alloc, &mut self.arena, &self.nest, id, to, no_wrap)?)
    }

    /// The unsigned quotient of two expressions.
    pub fn udiv(&mut self, left: ExprId, right: ExprId) -> Result<ExprId, CalculatorError> {
        alike(&self.arena, left, right)?;
        Ok(make_udiv(self.alloc, &mut self.arena, &self.nest, left, right)?)
    }

    /// The minimum or maximum of two expressions.
    pub fn minimum(
        &mut self,
        kind: MinKind,
        left: ExprId,
        right: ExprId,
    ) -> Result<ExprId, CalculatorError> {
        alike(&self.arena, left, right)?;
        Ok(make_min(self.alloc, &mut self.arena, &self.nest, kind, left, right)?)
    }

    /// The sequential minimum of two expressions.
    pub fn umin_seq(&mut self, first: ExprId, second: ExprId) -> Result<ExprId, CalculatorError> {
        alike(&self.arena, first, second)?;
        Ok(make_umin_seq(self.alloc, &mut self.arena, &self.nest, first, second)?)
    }

    /// The value of an expression once the loop is at the turn that the count is.
    pub fn at_turn(&mut self, id: ExprId, count: ExprId) -> Result<ExprId, CalculatorError> {
        tree(&self.arena, id)?;
        tree(&self.arena, count)?;
        let found = at_turn(self.alloc, &mut self.arena, &self.nest, id, LOOP, count)?;
        found.ok_or(CalculatorError::Hindered)
    }

    /// The number that an expression is.
    pub fn number(&self, id: ExprId) -> Result<Option<u64>, CalculatorError> {
        tree(&self.arena, id)?;
        Ok(number_of(&self.arena, id))
    }

    /// The text of an expression.
    pub fn text(&self, id: ExprId) -> Result<Vec<u8>, CalculatorError> {
        tree(&self.arena, id)?;
        let sheet = sheet(self.alloc)?;
        let names = Names::of(self.alloc, &[], &sheet)?;
        Ok(expr_text(self.alloc, &self.arena, &names, &[BlockId(0)], id)?)
    }
}
