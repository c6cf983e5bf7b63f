//! Quotients and remainders of two numbers of a width.

ghost use Rattle.std.specs.Prelude.{◌≡◌, ◌≢◌, ◌^◌, ◌<◌, Bool, pos, int_div, int_rem};
ghost use Rattle.scev_base.specs.Residue.{residue, reading};
ghost use Rattle.ir_meaning.specs.Rows.{by_divisor, by_signed_divisor, divided, remainder as row_of_urem};
ghost use Rattle.ir_meaning.specs.Rows.{divided_signed, remainder_signed, is_minus_one as reads_minus_one};
ghost use Rattle.ir_meaning.specs.Rows.{may_be_least};

use ir_meaning::Value;
use scev_base::{Width, signed, wrap};

/// The quotient: undefined where the divisor is 0; poison where `exact` is given and there is a remainder
/// (LLVM Language Reference, "udiv Instruction").
pub(crate) fn quotient(exact: bool, a: u64, b: u64) -> Option<Value>
    ensures { result ≡ by_divisor (divided exact) (Value.Number a) (Value.Number b) }
{
    if b == 0 {
        None
    } else if exact && a % b != 0 {
        Some(Value::Poison)
    } else {
        Some(Value::Number(a / b))
    }
}

/// The remainder: undefined where the divisor is 0 (LLVM Language Reference, "urem Instruction").
pub(crate) fn remainder(a: u64, b: u64) -> Option<Value>
    ensures { result ≡ by_divisor row_of_urem (Value.Number a) (Value.Number b) }
{
    if b == 0 {
        None
    } else {
        Some(Value::Number(a % b))
    }
}

/// The quotient of the signed numbers, rounded towards 0: undefined where the divisor is 0, and where it is
/// -1 and the other the least number; poison where `exact` is given and there is a remainder (LLVM Language
/// Reference, "sdiv Instruction").
pub(crate) fn signed_quotient(w: Width, exact: bool, a: u64, b: u64) -> Option<Value>
    requires left { a < 2 ^ w.bits }
    requires right { b < 2 ^ w.bits }
    ensures { result ≡ by_signed_divisor w.bits (divided_signed w.bits exact) (Value.Number a) (Value.Number b) }
{
    if (is_minus_one(w, b) && is_least(w, a)) || b == 0 {
        None
    } else if exact && rest(w, a, b) != 0 {
        Some(Value::Poison)
    } else {
        Some(Value::Number(whole(w, a, b)))
    }
}

/// What the quotient of the signed numbers leaves: undefined where that is (LLVM Language Reference, "srem
/// Instruction").
pub(crate) fn signed_remainder(w: Width, a: u64, b: u64) -> Option<Value>
    requires left { a < 2 ^ w.bits }
    requires right { b < 2 ^ w.bits }
    ensures { result ≡ by_signed_divisor w.bits (remainder_signed w.bits) (Value.Number a) (Value.Number b) }
{
    if (is_minus_one(w, b) && is_least(w, a)) || b == 0 {
        None
    } else {
        Some(Value::Number(rest(w, a, b)))
    }
}

/// Whether the number is -1 in the width.
pub(crate) fn is_minus_one(w: Width, b: u64) -> bool
    ensures { result ≡ reads_minus_one w.bits (Value.Number b) }
{
    u128::from(b) == (1 << w.get()) - 1
}

/// Whether the number is the least signed one of the width.
fn is_least(w: Width, a: u64) -> bool
    ensures { result ≡ may_be_least w.bits (Value.Number a) }
{
    a == 1 << (w.get() - 1)
}

/// The quotient of the signed numbers, rounded towards 0, modulo the width's power of 2.
fn whole(w: Width, a: u64, b: u64) -> u64
    requires left { a < 2 ^ w.bits }
    requires right { b < 2 ^ w.bits }
    requires divisor { b ≢ 0 }
    ensures { result ≡ residue w.bits (int_div (reading w.bits a) (reading w.bits b)) }
{
    wrap(divide(signed(a, w), signed(b, w)), w)
}

/// What that quotient leaves.
fn rest(w: Width, a: u64, b: u64) -> u64
    requires left { a < 2 ^ w.bits }
    requires right { b < 2 ^ w.bits }
    requires divisor { b ≢ 0 }
    ensures { result ≡ residue w.bits (int_rem (reading w.bits a) (reading w.bits b)) }
{
    wrap(remain(signed(a, w), signed(b, w)), w)
}

/// The quotient of two signed numbers, which doesn't wrap in 128 bits.
fn divide(a: i64, b: i64) -> i128
    requires { b ≢ pos 0 }
    ensures { result ≡ int_div a b }
{
    i128::from(a) / i128::from(b)
}

/// The remainder of two signed numbers.
fn remain(a: i64, b: i64) -> i128
    requires { b ≢ pos 0 }
    ensures { result ≡ int_rem a b }
{
    i128::from(a) % i128::from(b)
}
