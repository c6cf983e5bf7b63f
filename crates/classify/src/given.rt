//! The instruction that gives a register.

ghost use Rattle.std.specs.Prelude.{◌≡◌, ℕ, Some, Contains, IfSome, IfNone, slice_get};
ghost use Rattle.ir_meaning.specs.Thin.{IsThinFunction};
ghost use Rattle.classify.specs.Definitions.{AreDefinitions, IsGivenAt};

use crate::definitions::Definitions;
use ir_model::{Block, Function, Instr};
use scev_base::ValueId;

/// An instruction that gives the register, behind its block and the block's position. It is None exactly where
/// no instruction does, as for a parameter. It takes constant time.
pub(crate) fn given<'a>(
    f: &'a Function,
    definitions: &Definitions,
    v: ValueId,
) -> Option<(&'a Block, &'a Instr, u64)>
    requires thin { IsThinFunction f.now }
    requires definitions { AreDefinitions f.now definitions.now }
    ensures some { IfSome result (λ found. Contains f.now.blocks found.0.now
        × Contains found.0.now.instrs found.1.now × (found.1.now.result ≡ Some v)) }
    ensures at { IfSome result (λ found. slice_get f.now.blocks found.2 ≡ Some found.0.now) }
    ensures none { IfNone result ((place : ℕ × ℕ) → IsGivenAt f.now v.0 place → ⊥) }
{
    let (at, instr) = definitions.place(v)?;
    let block = &f.blocks.as_slice()[at as usize];
    let instr = &block.instrs.as_slice()[instr as usize];
    Some((block, instr, at))
}
