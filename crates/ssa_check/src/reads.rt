//! The uses of a function.

ghost use Rattle.std.specs.Prelude.{◌≡◌, ◌++◌, [], ◌∷◌, map, flat_map, IfOk, OnOk};
ghost use Rattle.ir_model.specs.declared.op.TypedOperand.{TypedOperand};
ghost use Rattle.ir_model.specs.Shapes.{register_of};
ghost use Rattle.ir_rules.specs.Uses.{uses, uses_from, op_uses};
ghost use Rattle.ssa_check.specs.Tables.{use_at, entry_uses};

use crate::sizes::Sizes;
use ir_model::{Block, Op, Operand, PhiEntry, TypedOperand};
use scev_base::{BlockId, ValueId};
use sqlite_items::Items;
use std::alloc::{AllocError, Global};
use std::marker::Model;

/// Where a value is read: by an instruction of a block, in a block behind so many of its instructions.
#[derive(Clone, Copy)]
pub(crate) struct Spot {
    pub(crate) user: BlockId,
    pub(crate) block: BlockId,
    pub(crate) index: usize,
}

/// A use of a value.
#[derive(Drop)]
pub(crate) struct Read {
    pub(crate) value: ValueId,
    pub(crate) spot: Spot,
}

impl Model for Read {
    ghost use Rattle.ir_rules.specs.Uses.{Use};
    ghost use Rattle.ssa_check.specs.Tables.{use_at};

    ghost Value = { Use };

    ghost view = { λ read. use_at read.spot read.value.0 };
}

/// The uses of a function in text order, in time linear in its size. The error comes only where there is no memory for
/// their list.
pub(crate) fn reads(alloc: Global, sizes: &Sizes<'_>) -> Result<Items<Read>, AllocError>
    ensures { IfOk result (λ reads. reads ≡ uses sizes.now) }
{
    let mut out = Items::new(alloc);
    for block in sizes.blocks() {
        push_block(sizes, block, &mut out)?;
    }
    Ok(out)
}

/// Adds the uses of the instructions of a block.
fn push_block(sizes: &Sizes<'_>, block: &Block, out: &mut Items<Read>) -> Result<(), AllocError>
    ensures { OnOk result (out.new ≡ out.old ++ uses_from sizes.now block.now.id.0 0 block.now.instrs) }
{
    for (index, instr) in block.instrs.as_slice().iter().enumerate() {
        push_op(sizes, block.id, index, &instr.op, out)?;
    }
    Ok(())
}

/// Adds the uses of an instruction at an index of a block.
fn push_op(
    sizes: &Sizes<'_>,
    user: BlockId,
    index: usize,
    op: &Op,
    out: &mut Items<Read>,
) -> Result<(), AllocError>
    ensures { OnOk result (out.new ≡ out.old ++ op_uses sizes.now user.0 index op.now) }
{
    let spot = Spot {
        user,
        block: user,
        index,
    };
    match op {
        Op::Binary { left, right, .. } | Op::Icmp { left, right, .. } => push_two(
            spot, *left, *right, out,
        ),
        Op::Cast { value, .. } | Op::Freeze { value, .. } => push_operand(spot, *value, out),
        Op::Select { cond, yes, no } => {
            push_operand(spot, *cond, out)?;
            push_two(spot, yes.value, no.value, out)
        }
        Op::Phi { entries, .. } => push_entries(sizes, user, entries.as_slice(), out),
        Op::Load { from, .. } => push_operand(spot, *from, out),
        Op::Store { value, to, .. } => push_two(spot, *value, *to, out),
        Op::Gep { base, indices, .. } => {
            push_operand(spot, *base, out)?;
            push_typed(spot, indices.as_slice(), out)
        }
        Op::Call { args, .. } => push_typed(spot, args.as_slice(), out),
        Op::Branch { cond, .. } => push_operand(spot, *cond, out),
        Op::Switch { value, .. } => push_operand(spot, *value, out),
        Op::Ret { value: Some(typed) } => push_operand(spot, typed.value, out),
        Op::Alloca { .. } | Op::Jump { .. } | Op::Ret { value: None } | Op::Unreachable => Ok(()),
    }
}

/// Adds the uses of a phi's entries: each is read at the end of the block that the entry is from.
fn push_entries(
    sizes: &Sizes<'_>,
    user: BlockId,
    entries: &[PhiEntry],
    out: &mut Items<Read>,
) -> Result<(), AllocError>
    ensures { OnOk result (out.new ≡ out.old ++ flat_map (entry_uses sizes.now user.0) entries.now) }
{
    for entry in entries {
        let spot = Spot {
            user,
            block: entry.from,
            index: sizes.get(entry.from),
        };
        push_operand(spot, entry.value, out)?;
    }
    Ok(())
}

/// Adds the uses of operands with their types.
fn push_typed(
    spot: Spot,
    operands: &[TypedOperand],
    out: &mut Items<Read>,
) -> Result<(), AllocError>
    ensures { OnOk result (out.new ≡ out.old
        ++ map (use_at spot) (flat_map register_of (map (λ (typed : TypedOperand). typed.value) operands.now))) }
{
    for typed in operands {
        push_operand(spot, typed.value, out)?;
    }
    Ok(())
}

/// Adds the uses of two operands.
fn push_two(
    spot: Spot,
    left: Operand,
    right: Operand,
    out: &mut Items<Read>,
) -> Result<(), AllocError>
    ensures { OnOk result (out.new ≡ out.old ++ map (use_at spot) (flat_map register_of (left ∷ right ∷ []))) }
{
    push_operand(spot, left, out)?;
    push_operand(spot, right, out)
}

/// Adds the use of an operand, where it is a register.
fn push_operand(spot: Spot, operand: Operand, out: &mut Items<Read>) -> Result<(), AllocError>
    ensures { OnOk result (out.new ≡ out.old ++ map (use_at spot) (register_of operand)) }
{
    match operand {
        Operand::Reg(value) => out.push(Read { value, spot }),
        Operand::Num(_) | Operand::Null | Operand::Global(_) | Operand::Undef | Operand::Poison =>
            Ok(()),
    }
}
