//! What is computed from operands.

ghost use Rattle.std.specs.Prelude.{◌≡◌, if◌then◌else◌, Some};
ghost use Rattle.ir_model.specs.declared.op.Op.TheVariants.{Binary, Icmp, Cast, Select, Freeze, Call};
ghost use Rattle.ir_meaning.specs.Step.{computed as meaning, given as given_by, called, arm_value};
ghost use Rattle.ir_meaning.specs.Step.{chosen_arm as meaning_of_arms};
ghost use Rattle.ir_machine.specs.Stands.{register};
ghost use Rattle.ir_machine.specs.Narrow.{IsNarrow};
ghost use Rattle.ir_machine.specs.Effects.{meant};

use crate::comparisons::{compared, least_or_greatest};
use crate::conversions::converted;
use crate::effect::Computed;
use crate::operand::{integer_value, operand_value};
use crate::operations::{Flags, operation};
use crate::pointers::compared_pointers;
use ir_meaning::Value;
use ir_model::{BinOp, CastOp, IrType, MinMax, Operand, TypedOperand};
use scev_base::{Pred, Width, trunc};

/// What an operation of two operands gives.
pub(crate) fn computed_binary(
    registers: &[Option<Value>],
    n: u64,
    op: BinOp,
    flags: Flags,
    kind: &IrType,
    left: &Operand,
    right: &Operand,
) -> Computed
    requires { IsNarrow kind.now }
    ensures { meant result ≡ meaning (register registers.now) n
        (Binary op flags.nuw flags.nsw flags.exact flags.disjoint kind.now left.now right.now) }
{
    let IrType::Int(bits) = kind else {
        return Computed::Stuck;
    };
    let w = Width { bits: *bits };
    let Some(a) = integer_value(registers, n, w, left) else {
        return Computed::Stuck;
    };
    match integer_value(registers, n, w, right) {
        Some(b) => given(operation(op, flags, w, a, b)),
        None => Computed::Stuck,
    }
}

/// What follows from the value of an operation; without one the behaviour is undefined.
fn given(value: Option<Value>) -> Computed
    ensures { meant result ≡ given_by value }
{
    match value {
        Some(x) => Computed::Gives(x),
        None => Computed::Undefined,
    }
}

/// What `icmp` gives.
pub(crate) fn computed_icmp(
    registers: &[Option<Value>],
    n: u64,
    pred: Pred,
    kind: &IrType,
    left: &Operand,
    right: &Operand,
) -> Computed
    requires { IsNarrow kind.now }
    ensures { meant result ≡ meaning (register registers.now) n
        (Icmp pred kind.now left.now right.now) }
{
    match kind {
        IrType::Int(bits) => icmp_of_integers(
            registers,
            n,
            pred,
            Width { bits: *bits },
            left,
            right,
        ),
        IrType::Ptr => match pred {
            Pred::Eq => icmp_of_pointers(registers, n, true, left, right),
            Pred::Ne => icmp_of_pointers(registers, n, false, left, right),
            Pred::Ugt | Pred::Uge | Pred::Ult | Pred::Ule => Computed::Stuck,
            Pred::Sgt | Pred::Sge | Pred::Slt | Pred::Sle => Computed::Stuck,
        },
        IrType::Void | IrType::Array(_, _) => Computed::Stuck,
    }
}

/// What `icmp` of integers of the width gives.
fn icmp_of_integers(
    registers: &[Option<Value>],
    n: u64,
    pred: Pred,
    w: Width,
    left: &Operand,
    right: &Operand,
) -> Computed
    ensures { meant result ≡ meaning (register registers.now) n
        (Icmp pred (IrType.Int w.bits) left.now right.now) }
{
    let Some(a) = integer_value(registers, n, w, left) else {
        return Computed::Stuck;
    };
    match integer_value(registers, n, w, right) {
        Some(b) => Computed::Gives(compared(pred, w, a, b)),
        None => Computed::Stuck,
    }
}

/// What `icmp` of pointers gives, by `eq` where `equal` is given and by `ne` where not.
fn icmp_of_pointers(
    registers: &[Option<Value>],
    n: u64,
    equal: bool,
    left: &Operand,
    right: &Operand,
) -> Computed
    ensures { meant result ≡ meaning (register registers.now) n
        (Icmp (if equal then Pred.Eq else Pred.Ne) IrType.Ptr left.now right.now) }
{
    let Some(a) = operand_value(registers, n, &IrType::Ptr, left) else {
        return Computed::Stuck;
    };
    match operand_value(registers, n, &IrType::Ptr, right) {
        Some(b) => Computed::Gives(compared_pointers(equal, n, a, b)),
        None => Computed::Stuck,
    }
}

/// What a conversion gives.
pub(crate) fn computed_cast(
    registers: &[Option<Value>],
    n: u64,
    op: CastOp,
    nneg: bool,
    from: &IrType,
    operand: &Operand,
    to: &IrType,
) -> Computed
    requires from { IsNarrow from.now }
    requires to { IsNarrow to.now }
    ensures { meant result ≡ meaning (register registers.now) n
        (Cast op nneg from.now operand.now to.now) }
{
    let IrType::Int(bits) = from else {
        return Computed::Stuck;
    };
    let v = Width { bits: *bits };
    let IrType::Int(bits) = to else {
        return Computed::Stuck;
    };
    let w = Width { bits: *bits };
    match integer_value(registers, n, v, operand) {
        Some(x) => Computed::Gives(converted(op, nneg, v, w, x)),
        None => Computed::Stuck,
    }
}

/// What `select` gives.
pub(crate) fn computed_select(
    registers: &[Option<Value>],
    n: u64,
    cond: &Operand,
    left: &TypedOperand,
    right: &TypedOperand,
) -> Computed
    requires left { IsNarrow left.now.kind }
    requires right { IsNarrow right.now.kind }
    ensures { meant result ≡ meaning (register registers.now) n (Select cond.now left.now right.now) }
{
    match integer_value(registers, n, Width { bits: 1 }, cond) {
        Some(c) => chosen_arm(registers, n, left, right, c),
        None => Computed::Stuck,
    }
}

/// What `select` gives on a condition: poison on poison, else the arm that is chosen (LLVM Language
/// Reference, "select Instruction").
fn chosen_arm(
    registers: &[Option<Value>],
    n: u64,
    left: &TypedOperand,
    right: &TypedOperand,
    cond: Value,
) -> Computed
    requires left { IsNarrow left.now.kind }
    requires right { IsNarrow right.now.kind }
    ensures { meant result ≡ meaning_of_arms (register registers.now) n left.now right.now cond }
{
    match cond {
        Value::Number(0) => arm(registers, n, right),
        Value::Number(_) => arm(registers, n, left),
        _ => Computed::Gives(Value::Poison),
    }
}

/// What an arm of a `select` gives.
fn arm(registers: &[Option<Value>], n: u64, typed: &TypedOperand) -> Computed
    requires { IsNarrow typed.now.kind }
    ensures { meant result ≡ arm_value (register registers.now) n typed.now }
{
    match operand_value(registers, n, &typed.kind, &typed.value) {
        Some(x) => Computed::Gives(x),
        None => Computed::Stuck,
    }
}

/// What `freeze` gives: the value, or the chosen number for poison (LLVM Language Reference, "freeze Instruction").
pub(crate) fn computed_freeze(
    registers: &[Option<Value>],
    n: u64,
    kind: &IrType,
    operand: &Operand,
) -> Computed
    requires { IsNarrow kind.now }
    ensures { meant result ≡ meaning (register registers.now) n (Freeze kind.now operand.now) }
{
    let IrType::Int(bits) = kind else {
        return Computed::Stuck;
    };
    let w = Width { bits: *bits };
    match integer_value(registers, n, w, operand) {
        Some(Value::Poison) => Computed::Gives(Value::Number(trunc(n, w))),
        Some(x) => Computed::Gives(x),
        None => Computed::Stuck,
    }
}

/// What a call gives that is one of a minimum or a maximum (LLVM Language Reference, "llvm.umin.* Intrinsic" and
/// kin).
pub(crate) fn computed_call(
    registers: &[Option<Value>],
    n: u64,
    ret: &IrType,
    callee: &[u8],
    args: &[TypedOperand],
) -> Computed
    requires { IsNarrow ret.now }
    ensures { meant result ≡ meaning (register registers.now) n (Call ret.now callee.now args.now) }
{
    let IrType::Int(bits) = ret else {
        return Computed::Stuck;
    };
    let w = Width { bits: *bits };
    let [left, right] = args else {
        return Computed::Stuck;
    };
    match MinMax::named(callee) {
        Some(kind) => min_max(registers, n, kind, w, &left.value, &right.value),
        None => Computed::Stuck,
    }
}

/// What a minimum or a maximum of two operands of the width gives.
fn min_max(
    registers: &[Option<Value>],
    n: u64,
    kind: MinMax,
    w: Width,
    left: &Operand,
    right: &Operand,
) -> Computed
    ensures { meant result ≡ called (register registers.now) n w.bits (Some kind) left.now right.now }
{
    let Some(a) = integer_value(registers, n, w, left) else {
        return Computed::Stuck;
    };
    match integer_value(registers, n, w, right) {
        Some(b) => Computed::Gives(least_or_greatest(kind, w, a, b)),
        None => Computed::Stuck,
    }
}
