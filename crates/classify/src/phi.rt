//! Recurrences of phis.

ghost use Rattle.std.specs.Prelude.{◌≡◌, ℕ, Some, None, Contains, IsOk, IfOk, IfSome, IfNone, slice_get, map};
ghost use Rattle.ir_meaning.specs.Thin.{IsThinFunction};
ghost use Rattle.loop_regions.specs.OneBlock.{AreLoops, one_block};
ghost use Rattle.scev_tree.specs.Tree.{affine};
ghost use Rattle.classify.specs.Definitions.{AreDefinitions};
ghost use Rattle.classify.specs.Recurrence.{IsAnswer, IsPhiOf, IsRecurrence};
ghost use Rattle.classify.specs.Truth.{IsTrueOf};

use crate::definitions::Definitions;
use crate::entries::{back_register, phi_entries, start_of};
use crate::given::given;
use crate::increment::increment_of;
use ir_model::Function;
use loop_regions::LoopTable;
use scev_base::ValueId;
use std::alloc::AllocError;

/// The first part and the step, as residues modulo 2^32, of a phi in the header of a loop of one block that
/// is a recurrence: it starts at one numeral on every edge from outside, and is increased by one numeral in
/// each turn. It is None exactly for every other register, and for all registers of a header with a phi
/// behind another instruction or of a function where some name isn't defined once. It takes no memory, so it
/// never fails, and time linear in the number of the phi's entries.
pub fn classify_phi(
    f: &Function,
    loops: &LoopTable,
    definitions: &Definitions,
    p: ValueId,
) -> Result<Option<(u64, u64)>, AllocError>
    requires thin { IsThinFunction f.now }
    requires loops { AreLoops f.now loops.now }
    requires definitions { AreDefinitions f.now definitions.now }

    ensures succeeds { IsOk result }

    // Exactly the phis that are recurrences.
    ensures exact { IfOk result (λ answer. (b : ℕ) → Contains loops.now (record { 0 = b })
        → IsPhiOf f.now b p.0 → IsAnswer f.now b p.0 answer) }
    ensures other { IfOk result (λ answer. ((b : ℕ) → Contains loops.now (record { 0 = b })
        → IsPhiOf f.now b p.0 → ⊥) → answer ≡ None) }

    // Each recurrence is true of its phi in every run.
    ensures holds { IfOk result (λ answer. (first step b k : ℕ) → answer ≡ Some (first, step)
        → slice_get loops.now k ≡ Some (record { 0 = b }) → IsPhiOf f.now b p.0
        → IsTrueOf f.now (map (λ header. one_block header.0) loops.now) p.0 (affine 32 k first step)) }
{
    Ok(recurrence(f, loops, definitions, p))
}

/// The first part and the step of a register that is a recurrence of the header of a loop.
fn recurrence(
    f: &Function,
    loops: &LoopTable,
    definitions: &Definitions,
    p: ValueId,
) -> Option<(u64, u64)>
    requires thin { IsThinFunction f.now }
    requires definitions { AreDefinitions f.now definitions.now }
    ensures some { IfSome result (λ found. (b : ℕ) × Contains loops.now (record { 0 = b })
        × IsRecurrence f.now b p.0 found.0 found.1) }
    ensures none { IfNone result ((b first step : ℕ) → Contains loops.now (record { 0 = b })
        → IsRecurrence f.now b p.0 first step → ⊥) }
{
    if !definitions.once() {
        return None;
    }
    let (block, phi, at) = given(f, definitions, p)?;
    loops.innermost(block.id)?;
    let entries = phi_entries(&phi.op)?;
    let next = back_register(entries, block.id)?;
    let first = start_of(entries, block.id)?;
    let (other, add, _) = given(f, definitions, next)?;
    if other.id != block.id {
        return None;
    }
    let step = increment_of(&add.op, p)?;
    definitions.are_phis_first(at).then_some((first, step))
}
