//! How often the names of a function are defined, and how often they are used.

ghost use Rattle.std.specs.Prelude.{◌≡◌, ◌++◌, length, map, flat_map, replicate, IfOk};
ghost use Rattle.ir_model.specs.Shapes.{targets};
ghost use Rattle.classify.specs.declared.tally.Often.TheVariants.{Never};
ghost use Rattle.ir_model.specs.Shapes.{operands, sources, register_of, result_of, defined_values, used_values};
ghost use Rattle.ir_model.specs.Shapes.{defined_blocks, used_blocks};
ghost use Rattle.classify.specs.Tally.{all_counted};

use crate::tally::Tally;
use ir_model::{Case, Function, Instr, Op, Operand, PhiEntry, TypedOperand};
use std::alloc::{AllocError, Global};

/// How often each register of the table is defined, by parameters and by instructions.
pub(crate) fn defined_registers(alloc: Global, f: &Function) -> Result<Tally, AllocError>
    ensures { IfOk result (λ tally. tally ≡ all_counted (replicate (length f.now.values) Never) (defined_values f.now)) }
{
    let mut defined = Tally::new(alloc, f.values.len())?;
    for param in f.params.as_slice() {
        defined.count(param.value.0);
    }
    for block in f.blocks.as_slice() {
        count_results(block.instrs.as_slice(), &mut defined);
    }
    Ok(defined)
}

/// How often each register of the table is an operand.
pub(crate) fn used_registers(alloc: Global, f: &Function) -> Result<Tally, AllocError>
    ensures { IfOk result (λ tally. tally ≡ all_counted (replicate (length f.now.values) Never) (used_values f.now)) }
{
    let mut used = Tally::new(alloc, f.values.len())?;
    for block in f.blocks.as_slice() {
        count_uses(block.instrs.as_slice(), &mut used);
    }
    Ok(used)
}

/// How often each label of the table is a block's.
pub(crate) fn defined_labels(alloc: Global, f: &Function) -> Result<Tally, AllocError>
    ensures { IfOk result (λ tally. tally ≡ all_counted (replicate (length f.now.labels) Never) (defined_blocks f.now)) }
{
    let mut defined = Tally::new(alloc, f.labels.len())?;
    for block in f.blocks.as_slice() {
        defined.count(block.id.0);
    }
    Ok(defined)
}

/// How often instructions name each label of the table.
pub(crate) fn used_labels(alloc: Global, f: &Function) -> Result<Tally, AllocError>
    ensures { IfOk result (λ tally. tally ≡ all_counted (replicate (length f.now.labels) Never) (used_blocks f.now)) }
{
    let mut used = Tally::new(alloc, f.labels.len())?;
    for block in f.blocks.as_slice() {
        count_named(block.instrs.as_slice(), &mut used);
    }
    Ok(used)
}

/// Counts the registers that the instructions define.
fn count_results(instrs: &[Instr], defined: &mut Tally)
    ensures { defined.new ≡ all_counted defined.old (flat_map (λ instr. result_of instr.result) instrs.now) }
{
    for instr in instrs {
        if let Some(value) = instr.result {
            defined.count(value.0);
        }
    }
}

/// Counts the registers that the instructions use.
fn count_uses(instrs: &[Instr], used: &mut Tally)
    ensures { used.new ≡ all_counted used.old (flat_map (λ instr. flat_map register_of (operands instr.op)) instrs.now) }
{
    for instr in instrs {
        count_operands(&instr.op, used);
    }
}

/// Counts the labels that the instructions name.
fn count_named(instrs: &[Instr], used: &mut Tally)
    ensures { used.new ≡ all_counted used.old (flat_map (λ instr. targets instr.op ++ sources instr.op) instrs.now) }
{
    for instr in instrs {
        count_targets(&instr.op, used);
        count_sources(&instr.op, used);
    }
}

/// Counts the registers among the operands of an operation.
fn count_operands(op: &Op, used: &mut Tally)
    ensures { used.new ≡ all_counted used.old (flat_map register_of (operands op.now)) }
{
    match op {
        Op::Binary { left, right, .. } | Op::Icmp { left, right, .. } => {
            count_operand(left, used);
            count_operand(right, used);
        }
        Op::Cast { value, .. }
        | Op::Freeze { value, .. }
        | Op::Load { from: value, .. }
        | Op::Branch { cond: value, .. }
        | Op::Switch { value, .. } => count_operand(value, used),
        Op::Select { cond, yes, no } => {
            count_operand(cond, used);
            count_operand(&yes.value, used);
            count_operand(&no.value, used);
        }
        Op::Phi { entries, .. } => count_entries(entries.as_slice(), used),
        Op::Store { value, to, .. } => {
            count_operand(value, used);
            count_operand(to, used);
        }
        Op::Gep { base, indices, .. } => {
            count_operand(base, used);
            count_typed(indices.as_slice(), used);
        }
        Op::Call { args, .. } => count_typed(args.as_slice(), used),
        Op::Ret { value: Some(typed) } => count_operand(&typed.value, used),
        Op::Alloca { .. } | Op::Jump { .. } | Op::Ret { value: None } | Op::Unreachable => {}
    }
}

/// Counts an operand that is a register.
fn count_operand(operand: &Operand, used: &mut Tally)
    ensures { used.new ≡ all_counted used.old (register_of operand.now) }
{
    if let Operand::Reg(value) = operand {
        used.count(value.0);
    }
}

/// Counts the registers that the entries of a phi take.
fn count_entries(entries: &[PhiEntry], used: &mut Tally)
    ensures { used.new ≡ all_counted used.old (flat_map register_of (map (λ entry. entry.value) entries.now)) }
{
    for entry in entries {
        count_operand(&entry.value, used);
    }
}

/// Counts the registers among operands with their types.
fn count_typed(operands: &[TypedOperand], used: &mut Tally)
    ensures { used.new ≡ all_counted used.old (flat_map register_of (map (λ typed. typed.value) operands.now)) }
{
    for typed in operands {
        count_operand(&typed.value, used);
    }
}

/// Counts the labels of the blocks to which an operation may lead.
fn count_targets(op: &Op, used: &mut Tally)
    ensures { used.new ≡ all_counted used.old (targets op.now) }
{
    match op {
        Op::Jump { to } => used.count(to.0),
        Op::Branch { yes, no, .. } => {
            used.count(yes.0);
            used.count(no.0);
        }
        Op::Switch { other, cases, .. } => {
            used.count(other.0);
            count_cases(cases.as_slice(), used);
        }
        _ => {}
    }
}

/// Counts the labels of the blocks to which the cases of a switch lead.
fn count_cases(cases: &[Case], used: &mut Tally)
    ensures { used.new ≡ all_counted used.old (map (λ one. one.to.0) cases.now) }
{
    for case in cases {
        used.count(case.to.0);
    }
}

/// Counts the labels of the blocks that a phi has entries from.
fn count_sources(op: &Op, used: &mut Tally)
    ensures { used.new ≡ all_counted used.old (sources op.now) }
{
    if let Op::Phi { entries, .. } = op {
        count_froms(entries.as_slice(), used);
    }
}

/// Counts the labels of the blocks that the entries of a phi are from.
fn count_froms(entries: &[PhiEntry], used: &mut Tally)
    ensures { used.new ≡ all_counted used.old (map (λ entry. entry.from.0) entries.now) }
{
    for entry in entries {
        used.count(entry.from.0);
    }
}
