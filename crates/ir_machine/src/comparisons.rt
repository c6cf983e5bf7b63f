//! Comparisons, minima and maxima of two numbers of a width.

ghost use Rattle.std.specs.Prelude.{◌≡◌, ◌^◌, ◌<◌, true, if◌then◌else◌};
ghost use Rattle.ir_meaning.specs.Values.{is_of_type};
ghost use Rattle.ir_meaning.specs.Rows.{on_numbers, compared as row_of_icmp, holds as comparison_holds, min_max_row};

use ir_meaning::Value;
use ir_model::{IrType, MinMax};
use scev_base::{Pred, Width, signed};

/// `icmp` of two values of the width: poison where one is, else 1 where the comparison holds and 0 where not
/// (LLVM Language Reference, "icmp Instruction").
pub(crate) fn compared(pred: Pred, w: Width, left: Value, right: Value) -> Value
    requires left { is_of_type (IrType.Int w.bits) left ≡ true }
    requires right { is_of_type (IrType.Int w.bits) right ≡ true }
    ensures { result ≡ on_numbers (row_of_icmp pred w.bits) left right }
{
    match left {
        Value::Number(a) => match right {
            Value::Number(b) => Value::Number(u64::from(holds(pred, w, a, b))),
            _ => Value::Poison,
        },
        _ => Value::Poison,
    }
}

/// Whether a comparison of two numbers of the width holds.
fn holds(pred: Pred, w: Width, a: u64, b: u64) -> bool
    requires left { a < 2 ^ w.bits }
    requires right { b < 2 ^ w.bits }
    ensures { result ≡ comparison_holds pred w.bits a b }
{
    match pred {
        Pred::Eq => a == b,
        Pred::Ne => a != b,
        Pred::Ugt => a > b,
        Pred::Uge => a >= b,
        Pred::Ult => a < b,
        Pred::Ule => a <= b,
        Pred::Sgt => signed(a, w) > signed(b, w),
        Pred::Sge => signed(a, w) >= signed(b, w),
        Pred::Slt => signed(a, w) < signed(b, w),
        Pred::Sle => signed(a, w) <= signed(b, w),
    }
}

/// A minimum or a maximum of two values of the width: poison where one is (LLVM Language Reference, "llvm.umin.*
/// Intrinsic" and kin).
pub(crate) fn least_or_greatest(kind: MinMax, w: Width, left: Value, right: Value) -> Value
    requires left { is_of_type (IrType.Int w.bits) left ≡ true }
    requires right { is_of_type (IrType.Int w.bits) right ≡ true }
    ensures { result ≡ on_numbers (min_max_row kind w.bits) left right }
{
    match left {
        Value::Number(a) => match right {
            Value::Number(b) => Value::Number(of_two(kind, w, a, b)),
            _ => Value::Poison,
        },
        _ => Value::Poison,
    }
}

/// The lesser or the greater of two numbers of the width.
fn of_two(kind: MinMax, w: Width, a: u64, b: u64) -> u64
    requires left { a < 2 ^ w.bits }
    requires right { b < 2 ^ w.bits }
    ensures { Value.Number result ≡ min_max_row kind w.bits a b }
{
    let (least, greatest) = match kind {
        MinMax::Umin | MinMax::Umax => in_order(a <= b, a, b),
        MinMax::Smin | MinMax::Smax => in_order(signed(a, w) <= signed(b, w), a, b),
    };
    match kind {
        MinMax::Umin | MinMax::Smin => least,
        MinMax::Umax | MinMax::Smax => greatest,
    }
}

/// Two numbers as they stand, or exchanged.
fn in_order(ordered: bool, a: u64, b: u64) -> (u64, u64)
    ensures least { result.0 ≡ (if ordered then a else b) }
    ensures greatest { result.1 ≡ (if ordered then b else a) }
{
    if ordered { (a, b) } else { (b, a) }
}
