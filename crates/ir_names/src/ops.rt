//! Instructions with their ids.

ghost use Rattle.std.specs.Prelude.{OnOk};
ghost use Rattle.ir_model.specs.Sites.{operand_sites, op_sites};
ghost use Rattle.ir_text.specs.Sites.{bare_operand, bare_op};
ghost use Rattle.ir_names.specs.Parts.{target_sites, bare_target, pair_sites, bare_pair, select_sites, bare_select, indexed_sites, bare_indexed, branch_sites, bare_branch, switch_sites, bare_switch};
ghost use Rattle.ir_names.specs.Renumbered.{Renumbers};

use crate::lists::{cases, entries, operands};
use crate::operands::{operand, returned, typed_in};
use crate::seen::Seen;
use crate::spoken::Spoken;
use ir_model::{Case, Op, Operand, TypedOperand};
use scev_base::BlockId;
use sqlite_items::Items;
use std::alloc::{AllocError, Global};

/// Gives an instruction the ids of its operands and its targets, from the left.
pub fn op<'a>(
    alloc: Global,
    spoken: &Spoken<'a, '_>,
    seen: &mut Seen<'a>,
    op: &mut Op,
) -> Result<(), AllocError>
    ensures { OnOk result (Renumbers op_sites bare_op spoken.now seen.old seen.new op.old op.new) }
{
    match op {
        Op::Binary { left, right, .. } => pair(spoken, seen, left, right),
        Op::Icmp { left, right, .. } => pair(spoken, seen, left, right),
        Op::Cast { value, .. } => single(spoken, seen, value),
        Op::Select { cond, yes, no } => select(spoken, seen, cond, yes, no),
        Op::Phi { entries: all, .. } => entries(alloc, spoken, seen, all),
        Op::Freeze { value, .. } => single(spoken, seen, value),
        Op::Alloca { .. } => Ok(()),
        Op::Load { from, .. } => single(spoken, seen, from),
        Op::Store { value, to, .. } => pair(spoken, seen, value, to),
        Op::Gep { base, indices, .. } => indexed(alloc, spoken, seen, base, indices),
        Op::Call { args, .. } => operands(alloc, spoken, seen, args),
        Op::Jump { to } => target(spoken, seen, to),
        Op::Branch { cond, yes, no } => branch(spoken, seen, cond, yes, no),
        Op::Switch {
            value,
            other,
            cases: all,
            ..
        } => switch(alloc, spoken, seen, value, other, all),
        Op::Ret { value } => returned(spoken, seen, value),
        Op::Unreachable => Ok(()),
    }
}

fn single<'a>(
    spoken: &Spoken<'a, '_>,
    seen: &mut Seen<'a>,
    value: &mut Operand,
) -> Result<(), AllocError>
    ensures { OnOk result (Renumbers operand_sites bare_operand spoken.now seen.old seen.new value.old value.new) }
{
    *value = operand(spoken, seen, *value)?;
    Ok(())
}

fn pair<'a>(
    spoken: &Spoken<'a, '_>,
    seen: &mut Seen<'a>,
    left: &mut Operand,
    right: &mut Operand,
) -> Result<(), AllocError>
    ensures { OnOk result (Renumbers pair_sites bare_pair spoken.now seen.old seen.new (left.old, right.old)
        (left.new, right.new)) }
{
    *left = operand(spoken, seen, *left)?;
    *right = operand(spoken, seen, *right)?;
    Ok(())
}

fn select<'a>(
    spoken: &Spoken<'a, '_>,
    seen: &mut Seen<'a>,
    cond: &mut Operand,
    yes: &mut TypedOperand,
    no: &mut TypedOperand,
) -> Result<(), AllocError>
    ensures { OnOk result (Renumbers select_sites bare_select spoken.now seen.old seen.new
        (cond.old, yes.old, no.old) (cond.new, yes.new, no.new)) }
{
    *cond = operand(spoken, seen, *cond)?;
    typed_in(spoken, seen, yes)?;
    typed_in(spoken, seen, no)?;
    Ok(())
}

fn indexed<'a>(
    alloc: Global,
    spoken: &Spoken<'a, '_>,
    seen: &mut Seen<'a>,
    base: &mut Operand,
    indices: &mut Items<TypedOperand>,
) -> Result<(), AllocError>
    ensures { OnOk result (Renumbers indexed_sites bare_indexed spoken.now seen.old seen.new
        (base.old, indices.old) (base.new, indices.new)) }
{
    *base = operand(spoken, seen, *base)?;
    operands(alloc, spoken, seen, indices)?;
    Ok(())
}

fn target<'a>(
    spoken: &Spoken<'a, '_>,
    seen: &mut Seen<'a>,
    to: &mut BlockId,
) -> Result<(), AllocError>
    ensures { OnOk result (Renumbers target_sites bare_target spoken.now seen.old seen.new to.old to.new) }
{
    *to = seen.uses_block(spoken, *to)?;
    Ok(())
}

fn branch<'a>(
    spoken: &Spoken<'a, '_>,
    seen: &mut Seen<'a>,
    cond: &mut Operand,
    yes: &mut BlockId,
    no: &mut BlockId,
) -> Result<(), AllocError>
    ensures { OnOk result (Renumbers branch_sites bare_branch spoken.now seen.old seen.new
        (cond.old, yes.old, no.old) (cond.new, yes.new, no.new)) }
{
    *cond = operand(spoken, seen, *cond)?;
    target(spoken, seen, yes)?;
    target(spoken, seen, no)?;
    Ok(())
}

fn switch<'a>(
    alloc: Global,
    spoken: &Spoken<'a, '_>,
    seen: &mut Seen<'a>,
    value: &mut Operand,
    other: &mut BlockId,
    all: &mut Items<Case>,
) -> Result<(), AllocError>
    ensures { OnOk result (Renumbers switch_sites bare_switch spoken.now seen.old seen.new
        (value.old, other.old, all.old) (value.new, other.new, all.new)) }
{
    *value = operand(spoken, seen, *value)?;
    target(spoken, seen, other)?;
    cases(alloc, spoken, seen, all)?;
    Ok(())
}
