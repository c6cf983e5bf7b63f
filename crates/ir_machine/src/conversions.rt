//! Conversions of values from one width to another.

ghost use Rattle.std.specs.Prelude.{◌≡◌, ◌-◌, ◌^◌, ◌<◌, nat_le, true};
ghost use Rattle.ir_meaning.specs.Values.{is_of_type};
ghost use Rattle.ir_meaning.specs.Rows.{converted as row_of_cast};

use ir_meaning::Value;
use ir_model::{CastOp, IrType};
use scev_base::{Width, signed, trunc, wrap};

/// A conversion of a value: poison of poison (LLVM Language Reference, "Conversion Operations").
pub(crate) fn converted(op: CastOp, nneg: bool, from: Width, to: Width, x: Value) -> Value
    requires { is_of_type (IrType.Int from.bits) x ≡ true }
    ensures { result ≡ row_of_cast op nneg from.bits to.bits x }
{
    match x {
        Value::Number(a) => of_number(op, nneg, from, to, a),
        Value::Pointer { .. } | Value::Null | Value::Poison => Value::Poison,
    }
}

/// A conversion of a number. A zero extension is poison where `nneg` is given and the number is negative.
fn of_number(op: CastOp, nneg: bool, from: Width, to: Width, a: u64) -> Value
    requires { a < 2 ^ from.bits }
    ensures { result ≡ row_of_cast op nneg from.bits to.bits (Value.Number a) }
{
    match op {
        CastOp::Zext => {
            if nneg && is_negative(from, a) {
                Value::Poison
            } else {
                Value::Number(a)
            }
        }
        CastOp::Sext => Value::Number(wrap(i128::from(signed(a, from)), to)),
        CastOp::Trunc => Value::Number(trunc(a, to)),
    }
}

/// Whether the sign bit is set.
fn is_negative(w: Width, a: u64) -> bool
    ensures { result ≡ nat_le (2 ^ (w.bits - 1)) a }
{
    a >= 1 << (w.get() - 1)
}
