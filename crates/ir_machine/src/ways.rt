//! Where terminators lead.

ghost use Rattle.std.specs.Prelude.{◌≡◌, Some};
ghost use Rattle.ir_meaning.specs.Step.{way, branched as meaning_of_branch};
ghost use Rattle.ir_machine.specs.Stands.{register};
ghost use Rattle.ir_machine.specs.Narrow.{IsNarrow, IsNarrowOp};
ghost use Rattle.ir_machine.specs.Effects.{meant_way};

use crate::effect::Way;
use crate::operand::{integer_value, operand_value};
use crate::switches::way_of_switch;
use ir_meaning::Value;
use ir_model::{Op, Operand, TypedOperand};
use scev_base::{BlockId, Width};

/// Where a terminator leads, with the registers and the number that `undef` takes.
pub(crate) fn way_of(registers: &[Option<Value>], n: u64, op: &Op) -> Way
    requires { IsNarrowOp op.now }
    ensures { meant_way result ≡ way (register registers.now) n op.now }
{
    match op {
        Op::Jump { to } => Way::Enters(*to),
        Op::Branch { cond, yes, no } => way_of_branch(registers, n, cond, *yes, *no),
        Op::Switch {
            kind,
            value,
            other,
            cases,
        } => way_of_switch(registers, n, kind, value, *other, cases.as_slice()),
        Op::Ret { value: None } => Way::Returns(None),
        Op::Ret { value: Some(typed) } => way_of_ret(registers, n, typed),
        Op::Unreachable => Way::Undefined,
        Op::Binary { .. } | Op::Icmp { .. } | Op::Cast { .. } | Op::Select { .. } => Way::Stuck,
        Op::Phi { .. } | Op::Freeze { .. } | Op::Alloca { .. } | Op::Load { .. } => Way::Stuck,
        Op::Store { .. } | Op::Gep { .. } | Op::Call { .. } => Way::Stuck,
    }
}

/// Where a conditional branch leads.
fn way_of_branch(
    registers: &[Option<Value>],
    n: u64,
    cond: &Operand,
    yes: BlockId,
    no: BlockId,
) -> Way
    ensures { meant_way result ≡ way (register registers.now) n (Op.Branch cond.now yes no) }
{
    match integer_value(registers, n, Width { bits: 1 }, cond) {
        Some(c) => branched(c, yes, no),
        None => Way::Stuck,
    }
}

/// Where a branch on a value leads: to `yes` for a number that isn't 0, to `no` for 0. On poison the
/// behaviour is undefined (LLVM Language Reference, "br Instruction").
fn branched(cond: Value, yes: BlockId, no: BlockId) -> Way
    ensures { meant_way result ≡ meaning_of_branch cond yes.0 no.0 }
{
    match cond {
        Value::Number(0) => Way::Enters(no),
        Value::Number(_) => Way::Enters(yes),
        _ => Way::Undefined,
    }
}

/// How a return of a value ends the run.
fn way_of_ret(registers: &[Option<Value>], n: u64, typed: &TypedOperand) -> Way
    requires { IsNarrow typed.now.kind }
    ensures { meant_way result ≡ way (register registers.now) n (Op.Ret (Some typed.now)) }
{
    match operand_value(registers, n, &typed.kind, &typed.value) {
        Some(x) => Way::Returns(Some(x)),
        None => Way::Stuck,
    }
}
