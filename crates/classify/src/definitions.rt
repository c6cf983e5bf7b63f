//! Where a function's registers are defined.

ghost use Rattle.std.specs.Prelude.{◌≡◌, ◌↔◌, ℕ, true, IsTrue, Some, IfOk, IfSome, IfNone, slice_get};
ghost use Rattle.ir_meaning.specs.Thin.{IsThinFunction};
ghost use Rattle.classify.specs.Definitions.{AreDefinitions};

use crate::first_phis::tell_first;
use crate::once::{are_labels_once, are_registers_once};
use crate::places::result_places;
use ir_model::Function;
use scev_base::ValueId;
use sqlite_items::Items;
use std::alloc::{AllocError, Global};
use std::marker::Model;

/// Whether each name of a function is defined once, where its registers are given, and in which of its blocks
/// the phis come first.
#[derive(Drop)]
pub struct Definitions {
    once: bool,
    places: Items<Option<(u64, u64)>>,
    first: Items<bool>,
}

impl Model for Definitions {
    ghost use Rattle.classify.specs.Definitions.{Found};

    ghost Value = { Found };

    ghost view = { λ d. record { once = d.once; places = d.places; first = d.first } };
}

impl Definitions {
    /// The definitions of a function, in time linear in its size.
    pub fn new(alloc: Global, f: &Function) -> Result<Definitions, AllocError>
        requires thin { IsThinFunction f.now }
        ensures exact { IfOk result (λ found. AreDefinitions f.now found) }
    {
        let registers = are_registers_once(alloc, f)?;
        let labels = are_labels_once(alloc, f)?;
        let places = result_places(alloc, f)?;
        let first = tell_first(alloc, f.blocks.as_slice())?;
        Ok(Definitions {
            once: registers && labels,
            places,
            first,
        })
    }

    /// Whether each name of the function is defined once.
    pub(crate) fn once(&self) -> bool
        ensures { result ≡ self.now.once }
    {
        self.once
    }

    /// The place of an instruction that gives the register: the position of the block, and that of the
    /// instruction in it. It is None where none was found, and outside the table.
    pub(crate) fn place(&self, v: ValueId) -> Option<(u64, u64)>
        ensures some { IfSome result (λ place. slice_get self.now.places v.0 ≡ Some (Some place)) }
        ensures none { IfNone result
            ((place : ℕ × ℕ) → slice_get self.now.places v.0 ≡ Some (Some place) → ⊥) }
    {
        match self.places.get(v.0 as usize) {
            Some(found) => *found,
            None => None,
        }
    }

    /// Whether the phis of the block at this position come first. It is false outside the function.
    pub(crate) fn are_phis_first(&self, block: u64) -> bool
        ensures { IsTrue result ↔ (slice_get self.now.first block ≡ Some true) }
    {
        matches!(self.first.get(block as usize), Some(true))
    }
}
