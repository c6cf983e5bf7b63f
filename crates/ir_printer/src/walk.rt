//! The walk over a function in text order, which counts what is defined, or what is used.

ghost use Rattle.std.specs.Prelude.{◌≡◌, ◌++◌, map, fold, OnOk};
ghost use Rattle.std.specs.List.{flat_map};
ghost use Rattle.ir_model.specs.declared.function.Param.{Param};
ghost use Rattle.ir_model.specs.declared.op.Case.{Case};
ghost use Rattle.ir_model.specs.Sites.{DefinesValue, UsesBlock, operand_sites, typed_sites, entry_sites, op_sites, result_sites, instr_sites, block_sites, function_sites};
ghost use Rattle.ir_printer.specs.Counting.{counted};

use crate::numbers::Numbers;
use ir_model::{Block, Case, Function, Instr, Op, Operand, Param, PhiEntry, TypedOperand};
use scev_base::{BlockId, ValueId};
use std::alloc::AllocError;

/// Counts an operand.
#[tactic(auto, unfolding(crate::specs::Counting::counted))]
fn walk_operand(numbers: &mut Numbers, uses: bool, operand: Operand) -> Result<(), AllocError>
    ensures { OnOk result (numbers.new ≡ fold (counted uses) numbers.old (operand_sites operand)) }
{
    match operand {
        Operand::Reg(value) => numbers.use_value(uses, value),
        Operand::Global(_) => Ok(()),
        Operand::Num(_) => Ok(()),
        Operand::Null | Operand::Undef | Operand::Poison => Ok(()),
    }
}

/// Counts two operands.
fn walk_two(
    numbers: &mut Numbers,
    uses: bool,
    left: Operand,
    right: Operand,
) -> Result<(), AllocError>
    ensures { OnOk result (numbers.new ≡ fold (counted uses) numbers.old (operand_sites left ++ operand_sites right)) }
{
    walk_operand(numbers, uses, left)?;
    walk_operand(numbers, uses, right)
}

/// Counts operands.
fn walk_typed(
    numbers: &mut Numbers,
    uses: bool,
    operands: &[TypedOperand],
) -> Result<(), AllocError>
    ensures { OnOk result (numbers.new ≡ fold (counted uses) numbers.old (flat_map typed_sites operands.now)) }
{
    for typed in operands {
        walk_operand(numbers, uses, typed.value)?;
    }
    Ok(())
}

/// Counts an entry of a phi.
fn walk_entry(numbers: &mut Numbers, uses: bool, entry: &PhiEntry) -> Result<(), AllocError>
    ensures { OnOk result (numbers.new ≡ fold (counted uses) numbers.old (entry_sites entry.now)) }
{
    walk_operand(numbers, uses, entry.value)?;
    numbers.use_block(uses, entry.from)
}

/// Counts the entries of a phi.
fn walk_entries(numbers: &mut Numbers, uses: bool, entries: &[PhiEntry]) -> Result<(), AllocError>
    ensures { OnOk result (numbers.new ≡ fold (counted uses) numbers.old (flat_map entry_sites entries.now)) }
{
    for entry in entries {
        walk_entry(numbers, uses, entry)?;
    }
    Ok(())
}

/// Counts the targets of cases.
fn walk_cases(numbers: &mut Numbers, uses: bool, cases: &[Case]) -> Result<(), AllocError>
    ensures { OnOk result (numbers.new
        ≡ fold (counted uses) numbers.old (map (λ (c : Case). UsesBlock c.to.0) cases.now)) }
{
    for case in cases {
        numbers.use_block(uses, case.to)?;
    }
    Ok(())
}

/// Counts the condition and the targets of a branch.
fn walk_branch(
    numbers: &mut Numbers,
    uses: bool,
    cond: Operand,
    yes: BlockId,
    no: BlockId,
) -> Result<(), AllocError>
    ensures { OnOk result (numbers.new ≡ fold (counted uses) numbers.old (op_sites (Op.Branch cond yes no))) }
{
    walk_operand(numbers, uses, cond)?;
    numbers.use_block(uses, yes)?;
    numbers.use_block(uses, no)
}

/// Counts the operands and targets of an operation.
fn walk_op(numbers: &mut Numbers, uses: bool, op: &Op) -> Result<(), AllocError>
    ensures { OnOk result (numbers.new ≡ fold (counted uses) numbers.old (op_sites op.now)) }
{
    match op {
        Op::Binary { left, right, .. } => walk_two(numbers, uses, *left, *right),
        Op::Icmp { left, right, .. } => walk_two(numbers, uses, *left, *right),
        Op::Cast { value, .. } => walk_operand(numbers, uses, *value),
        Op::Select { cond, yes, no } => {
            walk_operand(numbers, uses, *cond)?;
            walk_two(numbers, uses, yes.value, no.value)
        }
        Op::Phi { entries, .. } => walk_entries(numbers, uses, entries.as_slice()),
        Op::Freeze { value, .. } => walk_operand(numbers, uses, *value),
        Op::Alloca { .. } => Ok(()),
        Op::Load { from, .. } => walk_operand(numbers, uses, *from),
        Op::Store { value, to, .. } => walk_two(numbers, uses, *value, *to),
        Op::Gep { base, indices, .. } => {
            walk_operand(numbers, uses, *base)?;
            walk_typed(numbers, uses, indices.as_slice())
        }
        Op::Call { args, .. } => walk_typed(numbers, uses, args.as_slice()),
        Op::Jump { to } => numbers.use_block(uses, *to),
        Op::Branch { cond, yes, no } => walk_branch(numbers, uses, *cond, *yes, *no),
        Op::Switch {
            value,
            other,
            cases,
            ..
        } => {
            walk_operand(numbers, uses, *value)?;
            numbers.use_block(uses, *other)?;
            walk_cases(numbers, uses, cases.as_slice())
        }
        Op::Ret { value: Some(typed) } => walk_operand(numbers, uses, typed.value),
        Op::Ret { value: None } => Ok(()),
        Op::Unreachable => Ok(()),
    }
}

/// Counts the result of an instruction.
fn walk_result(numbers: &mut Numbers, uses: bool, given: Option<ValueId>) -> Result<(), AllocError>
    ensures { OnOk result (numbers.new ≡ fold (counted uses) numbers.old (result_sites given)) }
{
    match given {
        Some(value) => numbers.define_value(uses, value),
        None => Ok(()),
    }
}

/// Counts an instruction.
fn walk_instr(numbers: &mut Numbers, uses: bool, instr: &Instr) -> Result<(), AllocError>
    ensures { OnOk result (numbers.new ≡ fold (counted uses) numbers.old (instr_sites instr.now)) }
{
    walk_result(numbers, uses, instr.result)?;
    walk_op(numbers, uses, &instr.op)
}

/// Counts a block and its instructions.
fn walk_block(numbers: &mut Numbers, uses: bool, block: &Block) -> Result<(), AllocError>
    ensures { OnOk result (numbers.new ≡ fold (counted uses) numbers.old (block_sites block.now)) }
{
    numbers.define_block(uses, block.id)?;
    for instr in block.instrs.as_slice() {
        walk_instr(numbers, uses, instr)?;
    }
    Ok(())
}

/// Counts blocks.
fn walk_blocks(numbers: &mut Numbers, uses: bool, blocks: &[Block]) -> Result<(), AllocError>
    ensures { OnOk result (numbers.new ≡ fold (counted uses) numbers.old (flat_map block_sites blocks.now)) }
{
    for block in blocks {
        walk_block(numbers, uses, block)?;
    }
    Ok(())
}

/// Counts parameters.
fn walk_params(numbers: &mut Numbers, uses: bool, params: &[Param]) -> Result<(), AllocError>
    ensures { OnOk result (numbers.new
        ≡ fold (counted uses) numbers.old (map (λ (p : Param). DefinesValue p.value.0) params.now)) }
{
    for param in params {
        numbers.define_value(uses, param.value)?;
    }
    Ok(())
}

/// Counts what is defined in a function, or what is used in it.
pub fn walk_function(
    numbers: &mut Numbers,
    uses: bool,
    function: &Function,
) -> Result<(), AllocError>
    ensures { OnOk result (numbers.new ≡ fold (counted uses) numbers.old (function_sites function.now)) }
{
    walk_params(numbers, uses, function.params.as_slice())?;
    walk_blocks(numbers, uses, function.blocks.as_slice())
}
