//! Whether the names of a function are defined once.

ghost use Rattle.std.specs.Prelude.{◌↔◌, IfOk, IsTrue};
ghost use Rattle.ir_meaning.specs.Thin.{IsThinFunction};
ghost use Rattle.ir_model.specs.Shapes.{defined_values, used_values, defined_blocks, used_blocks};
ghost use Rattle.classify.specs.Names.{AreOnce};

use crate::names::{defined_labels, defined_registers, used_labels, used_registers};
use crate::tally::are_once;
use ir_model::Function;
use std::alloc::{AllocError, Global};

/// Whether each register that is defined or used is defined once.
pub(crate) fn are_registers_once(alloc: Global, f: &Function) -> Result<bool, AllocError>
    requires { IsThinFunction f.now }
    ensures { IfOk result (λ once. IsTrue once ↔ AreOnce (defined_values f.now) (used_values f.now)) }
{
    let defined = defined_registers(alloc, f)?;
    let used = used_registers(alloc, f)?;
    Ok(are_once(&defined, &used))
}

/// Whether each label that is a block's or is named is the label of one block.
pub(crate) fn are_labels_once(alloc: Global, f: &Function) -> Result<bool, AllocError>
    requires { IsThinFunction f.now }
    ensures { IfOk result (λ once. IsTrue once ↔ AreOnce (defined_blocks f.now) (used_blocks f.now)) }
{
    let defined = defined_labels(alloc, f)?;
    let used = used_labels(alloc, f)?;
    Ok(are_once(&defined, &used))
}
