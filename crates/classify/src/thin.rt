//! Whether a function is of the thin forms, which are those that are classified so far.

ghost use Rattle.std.specs.Prelude.{◌≡◌, ◌<◌, ◌↔◌, All, None, IsTrue};
ghost use Rattle.ir_model.specs.declared.types.IrType.{IrType};
ghost use Rattle.ir_meaning.specs.Thin.{IsThinOperand, IsThinGiving, IsThinEnding, HasResult};
ghost use Rattle.ir_meaning.specs.Thin.{AreThinInstrs, IsThinFunction};

use ir_model::{BinOp, Block, Function, Instr, IrType, Op, Operand, Param, PhiEntry};
use scev_base::ValueId;

/// Whether a function is of the thin forms: over `i32`, with additions, comparisons, phis, branches and returned
/// values, and with ids that stand in its tables.
///
/// Time linear in the function.
pub fn is_thin(f: &Function) -> bool
    ensures { IsTrue result ↔ IsThinFunction f.now }
{
    let values = f.values.len() as u64;
    let labels = f.labels.len() as u64;
    !f.blocks.is_empty()
        && are_thin_params(values, f.params.as_slice())
        && are_thin_blocks(values, labels, f.blocks.as_slice())
}

fn are_thin_params(values: u64, params: &[Param]) -> bool
    ensures { IsTrue result ↔ All (λ p. (p.kind ≡ IrType.Int 32) × (p.value.0 < values)) params.now }
{
    params.iter().all(|param| is_thin_param(values, param))
}

fn is_thin_param(values: u64, param: &Param) -> bool
    ensures { IsTrue result ↔ (param.now.kind ≡ IrType.Int 32) × (param.now.value.0 < values) }
{
    is_int32(&param.kind) && param.value.0 < values
}

fn are_thin_blocks(values: u64, labels: u64, blocks: &[Block]) -> bool
    ensures { IsTrue result
        ↔ All (λ block. (block.id.0 < labels) × AreThinInstrs values labels block.instrs) blocks.now }
{
    blocks
        .iter()
        .all(|block| is_thin_block(values, labels, block))
}

fn is_thin_block(values: u64, labels: u64, block: &Block) -> bool
    ensures { IsTrue result ↔ (block.now.id.0 < labels) × AreThinInstrs values labels block.now.instrs }
{
    block.id.0 < labels && are_thin_instrs(values, labels, block.instrs.as_slice())
}

fn are_thin_instrs(values: u64, labels: u64, instrs: &[Instr]) -> bool
    ensures { IsTrue result ↔ AreThinInstrs values labels instrs.now }
{
    match instrs.split_last() {
        Some((last, others)) => ends(values, labels, last) && all_give(values, labels, others),
        None => false,
    }
}

fn ends(values: u64, labels: u64, instr: &Instr) -> bool
    ensures { IsTrue result ↔ (instr.now.result ≡ None) × IsThinEnding values labels instr.now.op }
{
    instr.result.is_none() && is_thin_ending(values, labels, &instr.op)
}

fn all_give(values: u64, labels: u64, instrs: &[Instr]) -> bool
    ensures { IsTrue result
        ↔ All (λ i. HasResult values i.result × IsThinGiving values labels i.op) instrs.now }
{
    instrs.iter().all(|instr| gives(values, labels, instr))
}

fn gives(values: u64, labels: u64, instr: &Instr) -> bool
    ensures { IsTrue result ↔ HasResult values instr.now.result × IsThinGiving values labels instr.now.op }
{
    has_result(values, instr.result) && is_thin_giving(values, labels, &instr.op)
}

fn has_result(values: u64, target: Option<ValueId>) -> bool
    ensures { IsTrue result ↔ HasResult values target }
{
    match target {
        Some(v) => v.0 < values,
        None => false,
    }
}

fn is_thin_ending(values: u64, labels: u64, op: &Op) -> bool
    ensures { IsTrue result ↔ IsThinEnding values labels op.now }
{
    match op {
        Op::Jump { to } => to.0 < labels,
        Op::Branch { cond, yes, no } => {
            is_thin_operand(values, cond) && yes.0 < labels && no.0 < labels
        }
        Op::Ret { value: Some(typed) } => {
            is_int32(&typed.kind) && is_thin_operand(values, &typed.value)
        }
        _ => false,
    }
}

fn is_thin_giving(values: u64, labels: u64, op: &Op) -> bool
    ensures { IsTrue result ↔ IsThinGiving values labels op.now }
{
    match op {
        Op::Phi { kind, entries } => {
            is_int32(kind) && are_thin_entries(values, labels, entries.as_slice())
        }
        Op::Binary {
            op: BinOp::Add,
            kind,
            left,
            right,
            ..
        } => is_thin_two(values, kind, left, right),
        Op::Icmp {
            kind,
            left,
            right,
            ..
        } => is_thin_two(values, kind, left, right),
        _ => false,
    }
}

fn is_thin_two(values: u64, kind: &IrType, left: &Operand, right: &Operand) -> bool
    ensures { IsTrue result
        ↔ (kind.now ≡ IrType.Int 32) × IsThinOperand values left.now × IsThinOperand values right.now }
{
    is_int32(kind) && is_thin_operand(values, left) && is_thin_operand(values, right)
}

fn are_thin_entries(values: u64, labels: u64, entries: &[PhiEntry]) -> bool
    ensures { IsTrue result
        ↔ All (λ entry. IsThinOperand values entry.value × (entry.from.0 < labels)) entries.now }
{
    entries
        .iter()
        .all(|entry| is_thin_entry(values, labels, *entry))
}

fn is_thin_entry(values: u64, labels: u64, entry: PhiEntry) -> bool
    ensures { IsTrue result ↔ IsThinOperand values entry.value × (entry.from.0 < labels) }
{
    is_thin_operand(values, &entry.value) && entry.from.0 < labels
}

fn is_thin_operand(values: u64, operand: &Operand) -> bool
    ensures { IsTrue result ↔ IsThinOperand values operand.now }
{
    match operand {
        Operand::Reg(v) => v.0 < values,
        Operand::Num(_) => true,
        _ => false,
    }
}

fn is_int32(kind: &IrType) -> bool
    ensures { IsTrue result ↔ (kind.now ≡ IrType.Int 32) }
{
    match kind {
        IrType::Int(bits) => *bits == 32,
        _ => false,
    }
}
