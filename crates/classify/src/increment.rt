//! Numerals, and the operation that adds one to a register.

ghost use Rattle.std.specs.Prelude.{◌≡◌, ◌≢◌, ◌⊎◌, ℕ, IfSome, IfNone};
ghost use Rattle.ir_model.specs.declared.op.Operand.TheVariants as operand;
ghost use Rattle.classify.specs.Recurrence.{IsNumeral, Increments};

use ir_model::{BinOp, IrType, Op, Operand};
use scev_base::{ValueId, Width, wrap};

/// The width of all integers of the thin forms.
const WORD: Width = Width { bits: 32 };

/// The residue modulo 2^32 of a numeral. It is None for every other operand.
pub(crate) fn numeral(operand: Operand) -> Option<u64>
    ensures some { IfSome result (λ n. IsNumeral n operand) }
    ensures none { IfNone result ((n : ℕ) → IsNumeral n operand → ⊥) }
{
    match operand {
        Operand::Num(written) => Some(wrap(written, WORD)),
        _ => None,
    }
}

/// What an operation adds to a register, as a residue modulo 2^32, where it is the `add i32` of that register
/// and a numeral, in either order. It is None for every other operation.
pub(crate) fn increment_of(op: &Op, p: ValueId) -> Option<u64>
    ensures some { IfSome result (λ step. Increments p.0 step op.now) }
    ensures none { IfNone result ((step : ℕ) → Increments p.0 step op.now → ⊥) }
{
    let Op::Binary {
        op: operation,
        kind,
        left,
        right,
        ..
    } = op
    else {
        return None;
    };
    let (BinOp::Add, IrType::Int(32)) = (operation, kind) else {
        return None;
    };
    numeral(beside(*left, *right, p)?)
}

/// The operand beside a register, where one of the two is the register. It is None where neither is.
fn beside(left: Operand, right: Operand, p: ValueId) -> Option<Operand>
    ensures some { IfSome result (λ other.
        ((left ≡ operand.Reg p) × (right ≡ other)) ⊎ ((left ≡ other) × (right ≡ operand.Reg p))) }
    ensures none { IfNone result ((left ≢ operand.Reg p) × (right ≢ operand.Reg p)) }
{
    match (left, right) {
        (Operand::Reg(register), other) if register == p => Some(other),
        (other, Operand::Reg(register)) if register == p => Some(other),
        _ => None,
    }
}
