//! Values of operands.

ghost use Rattle.std.specs.Prelude.{◌≡◌, ℕ, true, IfSome};
ghost use Rattle.ir_meaning.specs.Values.{is_of_type};
ghost use Rattle.ir_meaning.specs.Operands.{operand_value as value_of_operand};
ghost use Rattle.ir_machine.specs.Stands.{register};
ghost use Rattle.ir_machine.specs.Narrow.{IsNarrow};

use ir_meaning::Value;
use ir_model::{IrType, Operand};
use scev_base::{ValueId, Width, trunc, wrap};

/// What a register holds. It is None where it isn't set, or there is no such register.
pub(crate) fn held(registers: &[Option<Value>], v: ValueId) -> Option<Value>
    ensures { result ≡ register registers.now v.0 }
{
    match registers.get(v.0 as usize) {
        Some(held) => *held,
        None => None,
    }
}

/// The value of an operand at its type, with the number that `undef` takes. It is None where the operand
/// has no value of the type: its register isn't set or holds another type's value, or it is another type's
/// literal.
pub(crate) fn operand_value(
    registers: &[Option<Value>],
    n: u64,
    kind: &IrType,
    operand: &Operand,
) -> Option<Value>
    requires { IsNarrow kind.now }
    ensures { result ≡ value_of_operand (register registers.now) n kind.now operand.now }
{
    match kind {
        IrType::Int(bits) => integer_value(registers, n, Width { bits: *bits }, operand),
        IrType::Ptr => pointer_value(registers, operand),
        IrType::Void | IrType::Array(_, _) => None,
    }
}

/// The value of an operand at the integer type of the width.
pub(crate) fn integer_value(
    registers: &[Option<Value>],
    n: u64,
    w: Width,
    operand: &Operand,
) -> Option<Value>
    ensures value { result ≡ value_of_operand (register registers.now) n (IrType.Int w.bits) operand.now }
    ensures of_type { IfSome result (λ x. is_of_type (IrType.Int w.bits) x ≡ true) }
{
    match operand {
        Operand::Reg(v) => held(registers, *v).filter(|x| is_integer(*x, w)),
        Operand::Num(z) => Some(Value::Number(wrap(*z, w))),
        Operand::Undef => Some(Value::Number(trunc(n, w))),
        Operand::Poison => Some(Value::Poison),
        Operand::Null | Operand::Global(_) => None,
    }
}

/// The value of an operand at the type of pointers.
pub(crate) fn pointer_value(registers: &[Option<Value>], operand: &Operand) -> Option<Value>
    ensures { (n : ℕ) → result ≡ value_of_operand (register registers.now) n IrType.Ptr operand.now }
{
    match operand {
        Operand::Reg(v) => held(registers, *v).filter(|x| is_pointer(*x)),
        Operand::Null | Operand::Undef => Some(Value::Null),
        Operand::Global(block) => Some(Value::Pointer {
            block: *block,
            offset: 0,
        }),
        Operand::Poison => Some(Value::Poison),
        Operand::Num(_) => None,
    }
}

/// Whether a value is one of the integer type of the width.
pub(crate) fn is_integer(x: Value, w: Width) -> bool
    ensures { result ≡ is_of_type (IrType.Int w.bits) x }
{
    match x {
        Value::Number(n) => w.get() == 64 || n < 1 << w.get(),
        Value::Poison => true,
        Value::Pointer { .. } | Value::Null => false,
    }
}

/// Whether a value is one of the type of pointers.
fn is_pointer(x: Value) -> bool
    ensures { result ≡ is_of_type IrType.Ptr x }
{
    match x {
        Value::Number(_) => false,
        Value::Pointer { .. } | Value::Null | Value::Poison => true,
    }
}
