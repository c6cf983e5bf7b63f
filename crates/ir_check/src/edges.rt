//! Edges into the first block, and phis behind other instructions.

ghost use Rattle.std.specs.Prelude.{◌≡◌, ◌==◌, slice_get};
ghost use Rattle.std.specs.List.{list_any};
ghost use Rattle.ir_model.specs.declared.op.Case.{Case};
ghost use Rattle.ir_model.specs.declared.function.Instr.{Instr};
ghost use Rattle.ir_rules.specs.Blocks as blocks;
ghost use Rattle.ir_model.specs.Shapes as shapes;
ghost use Rattle.ir_check.specs.Instrs.{op_leads_to, leads_to, late_places};

use crate::instrs::place_of;
use ir_model::{Block, Case, Function, Instr, Op, Place};
use scev_base::BlockId;

/// The first block, where it is a target.
#[tactic(auto, using(crate::proofs::LeadLemmas::is_target_leads_to))]
pub(crate) fn entry_target(f: &Function) -> Option<Place>
    ensures { result ≡ slice_get (blocks.entry_targets f.now) 0 }
{
    let entry = f.entry();
    if any_leads_to(f.blocks.as_slice(), entry) {
        return Some(Place::BlockAt(entry));
    }
    None
}

/// Whether an instruction of some blocks leads to a block.
fn any_leads_to(blocks: &[Block], b: BlockId) -> bool
    ensures { result ≡ leads_to blocks.now b.0 }
{
    blocks
        .iter()
        .any(|block| some_leads_to(block.instrs.as_slice(), b))
}

/// Whether one of some instructions leads to a block.
fn some_leads_to(instrs: &[Instr], b: BlockId) -> bool
    ensures { result ≡ list_any (λ (instr : Instr). op_leads_to instr.op b.0) instrs.now }
{
    instrs.iter().any(|instr| op_leads_to(&instr.op, b))
}

/// Whether an operation leads to a block.
#[tactic(auto, using(crate::proofs::LeadLemmas::any_of_map))]
fn op_leads_to(op: &Op, b: BlockId) -> bool
    ensures { result ≡ op_leads_to op.now b.0 }
{
    match op {
        Op::Jump { to } => to.0 == b.0,
        Op::Branch { yes, no, .. } => yes.0 == b.0 || no.0 == b.0,
        Op::Switch { other, cases, .. } => { other.0 == b.0 || case_leads_to(cases.as_slice(), b) }
        _ => false,
    }
}

/// Whether a case of a switch leads to a block.
fn case_leads_to(cases: &[Case], b: BlockId) -> bool
    ensures { result ≡ list_any (λ (one : Case). one.to.0 == b.0) cases.now }
{
    cases.iter().any(|case| case.to.0 == b.0)
}

/// The first phi behind another instruction of its block.
pub(crate) fn late_phi(f: &Function) -> Option<Place>
    ensures { result ≡ slice_get (blocks.late_phis f.now) 0 }
{
    for block in f.blocks.as_slice() {
        match late_in(block.id, block.instrs.as_slice()) {
            Some(place) => return Some(place),
            None => {}
        }
    }
    None
}

/// The first phi of a list behind another instruction of it.
#[tactic(auto, using(crate::proofs::FirstPlaces::rest_at, crate::proofs::LateLemmas::late_steps))]
fn late_in(b: BlockId, instrs: &[Instr]) -> Option<Place>
    ensures { result ≡ slice_get (late_places b.0 instrs.now) 0 }
{
    let mut other = false;
    for instr in instrs {
        if !instr.op.is_phi() {
            other = true;
        } else if other {
            return Some(place_of(b, instr));
        }
    }
    None
}
