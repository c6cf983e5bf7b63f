//! Operations of two integer operands.

ghost use Rattle.std.specs.Prelude.{◌≡◌, ℕ, ◌^◌, ◌<◌, Bool, true, if◌then◌else◌};
ghost use Rattle.ir_meaning.specs.declared.value.Value.{Value as AnyValue};
ghost use Rattle.ir_meaning.specs.Values.{is_of_type};
ghost use Rattle.ir_meaning.specs.Rows.{binary_row};

use crate::bits::{conjoined, disjoined, exclusive};
use crate::divisions::{is_minus_one, quotient, remainder, signed_quotient, signed_remainder};
use crate::shifts::{shifted_left, shifted_right, shifted_signed};
use crate::sums::{difference, product, sum};
use ir_meaning::Value;
use ir_model::{BinOp, IrType};
use scev_base::Width;

/// The flags of an operation.
#[derive(Clone, Copy)]
pub(crate) struct Flags {
    pub nuw: bool,
    pub nsw: bool,
    pub exact: bool,
    pub disjoint: bool,
}

/// What an operation gives to two values of the width. It is None where the behaviour is undefined.
pub(crate) fn operation(
    op: BinOp,
    flags: Flags,
    w: Width,
    left: Value,
    right: Value,
) -> Option<Value>
    requires left { is_of_type (IrType.Int w.bits) left ≡ true }
    requires right { is_of_type (IrType.Int w.bits) right ≡ true }
    ensures { result ≡ binary_row op flags.nuw flags.nsw flags.exact flags.disjoint w.bits left right }
{
    match right {
        Value::Number(b) => match left {
            Value::Number(a) => of_numbers(op, flags, w, a, b),
            _ => of_poison(op, w, b),
        },
        _ => by_poison(op),
    }
}

/// What an operation gives to two numbers of the width.
fn of_numbers(op: BinOp, flags: Flags, w: Width, a: u64, b: u64) -> Option<Value>
    requires left { a < 2 ^ w.bits }
    requires right { b < 2 ^ w.bits }
    ensures { result ≡ binary_row op flags.nuw flags.nsw flags.exact flags.disjoint w.bits
        (Value.Number a) (Value.Number b) }
{
    match op {
        BinOp::Add => Some(sum(w, flags.nuw, flags.nsw, a, b)),
        BinOp::Sub => Some(difference(w, flags.nuw, flags.nsw, a, b)),
        BinOp::Mul => Some(product(w, flags.nuw, flags.nsw, a, b)),
        BinOp::Shl => Some(shifted_left(w, flags.nuw, flags.nsw, a, b)),
        BinOp::Udiv => quotient(flags.exact, a, b),
        BinOp::Sdiv => signed_quotient(w, flags.exact, a, b),
        BinOp::Lshr => Some(shifted_right(w, flags.exact, a, b)),
        BinOp::Ashr => Some(shifted_signed(w, flags.exact, a, b)),
        BinOp::Urem => remainder(a, b),
        BinOp::Srem => signed_remainder(w, a, b),
        BinOp::And => Some(conjoined(a, b)),
        BinOp::Xor => Some(exclusive(a, b)),
        BinOp::Or => Some(disjoined(flags.disjoint, a, b)),
    }
}

/// What an operation gives to poison and a number: poison, but where it divides by 0, or by -1, since poison
/// may stand for the least number.
fn of_poison(op: BinOp, w: Width, b: u64) -> Option<Value>
    ensures { (nuw nsw exact disjoint : Bool)
        → result ≡ binary_row op nuw nsw exact disjoint w.bits Value.Poison (Value.Number b) }
{
    match op {
        BinOp::Udiv | BinOp::Urem => poison_unless(b == 0),
        BinOp::Sdiv | BinOp::Srem => poison_unless(b == 0 || is_minus_one(w, b)),
        BinOp::Add | BinOp::Sub | BinOp::Mul => Some(Value::Poison),
        BinOp::Shl | BinOp::Lshr | BinOp::Ashr => Some(Value::Poison),
        BinOp::And | BinOp::Xor | BinOp::Or => Some(Value::Poison),
    }
}

/// Poison, unless the behaviour is undefined.
fn poison_unless(undefined: bool) -> Option<Value>
    ensures { result ≡ (if undefined then None else Some Value.Poison) }
{
    if undefined { None } else { Some(Value::Poison) }
}

/// What an operation gives to any value and poison: poison, unless it divides.
fn by_poison(op: BinOp) -> Option<Value>
    ensures { (nuw nsw exact disjoint : Bool) (w : ℕ) (x : AnyValue)
        → result ≡ binary_row op nuw nsw exact disjoint w x Value.Poison }
{
    match op {
        BinOp::Udiv | BinOp::Sdiv | BinOp::Urem | BinOp::Srem => None,
        BinOp::Add | BinOp::Sub | BinOp::Mul => Some(Value::Poison),
        BinOp::Shl | BinOp::Lshr | BinOp::Ashr => Some(Value::Poison),
        BinOp::And | BinOp::Xor | BinOp::Or => Some(Value::Poison),
    }
}
