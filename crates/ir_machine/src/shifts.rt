//! Shifts of a number of a width.

ghost use Rattle.std.specs.Prelude.{◌≡◌, ◌≤◌, ◌^◌, ◌<◌, ◌*ℤ◌, pos, IfSome, IfNone};
ghost use Rattle.std.specs.Int.{int_div_euclid};
ghost use Rattle.ir_meaning.specs.Rows.{shifted_left as row_of_shl, shifted_right as row_of_lshr};
ghost use Rattle.ir_meaning.specs.Rows.{shifted_signed as row_of_ashr, leaves_set_bit as leaves_bit};

use crate::wraps::{lowest, wraps_signed, wraps_unsigned};
use ir_meaning::Value;
use scev_base::{Width, signed, wrap};

/// The number, shifted to the left: poison where the shift isn't below the width, and where `nuw` or `nsw`
/// is given and the product with the power of 2 wraps so (LLVM Language Reference, "shl Instruction").
pub(crate) fn shifted_left(w: Width, nuw: bool, nsw: bool, a: u64, b: u64) -> Value
    requires left { a < 2 ^ w.bits }
    ensures { result ≡ row_of_shl w.bits nuw nsw a b }
{
    if b >= u64::from(w.get()) {
        return Value::Poison;
    }
    let product = u128::from(a) * u128::from(power(b));
    let read = signed_product(signed(a, w), b);
    if (nuw && wraps_unsigned(w, product)) || (nsw && wraps_signed(w, read)) {
        Value::Poison
    } else {
        Value::Number(lowest(product, w))
    }
}

/// The number, shifted to the right: poison where the shift isn't below the width, and where `exact` is
/// given and a set bit leaves (LLVM Language Reference, "lshr Instruction").
pub(crate) fn shifted_right(w: Width, exact: bool, a: u64, b: u64) -> Value
    ensures { result ≡ row_of_lshr w.bits exact a b }
{
    if b >= u64::from(w.get()) || (exact && leaves_set_bit(a, b)) {
        Value::Poison
    } else {
        Value::Number(a / power(b))
    }
}

/// The signed number, shifted to the right: poison as for the unsigned one (LLVM Language Reference, "ashr
/// Instruction").
pub(crate) fn shifted_signed(w: Width, exact: bool, a: u64, b: u64) -> Value
    requires left { a < 2 ^ w.bits }
    ensures { result ≡ row_of_ashr w.bits exact a b }
{
    if b >= u64::from(w.get()) || (exact && leaves_set_bit(a, b)) {
        Value::Poison
    } else {
        Value::Number(wrap(signed_quotient(signed(a, w), b), w))
    }
}

/// Whether a set bit leaves where so many bits do.
fn leaves_set_bit(a: u64, b: u64) -> bool
    requires { b < 64 }
    ensures { result ≡ leaves_bit a b }
{
    a % power(b) != 0
}

/// A power of 2.
fn power(b: u64) -> u64
    requires { b < 64 }
    ensures { result ≡ 2 ^ b }
{
    1 << b
}

/// The product of a signed number and a power of 2, which doesn't wrap in 128 bits.
fn signed_product(a: i64, b: u64) -> i128
    requires { b < 64 }
    ensures { result ≡ a *ℤ pos (2 ^ b) }
{
    i128::from(a) * i128::from(power(b))
}

/// The quotient of a signed number and a power of 2, rounded down.
fn signed_quotient(a: i64, b: u64) -> i128
    requires { b < 64 }
    ensures { result ≡ int_div_euclid a (pos (2 ^ b)) }
{
    i128::from(a).div_euclid(i128::from(power(b)))
}
