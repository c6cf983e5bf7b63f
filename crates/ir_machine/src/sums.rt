//! Sums, differences and products of two numbers of a width.

ghost use Rattle.std.specs.Prelude.{◌≡◌, ◌-◌, ◌^◌, ◌<◌, ◌≤◌, ◌+ℤ◌, ◌*ℤ◌, neg_ℤ, nat_lt};
ghost use Rattle.ir_meaning.specs.Rows.{added, subtracted, multiplied};

use crate::wraps::{lowest, wraps_signed, wraps_unsigned};
use ir_meaning::Value;
use scev_base::{Width, signed};

/// The sum: poison where `nuw` or `nsw` is given and it wraps so (LLVM Language Reference, "add
/// Instruction").
pub(crate) fn sum(w: Width, nuw: bool, nsw: bool, a: u64, b: u64) -> Value
    requires left { a < 2 ^ w.bits }
    requires right { b < 2 ^ w.bits }
    ensures { result ≡ added w.bits nuw nsw a b }
{
    let sum = u128::from(a) + u128::from(b);
    let read = signed_sum(signed(a, w), signed(b, w));
    if (nuw && wraps_unsigned(w, sum)) || (nsw && wraps_signed(w, read)) {
        Value::Poison
    } else {
        Value::Number(lowest(sum, w))
    }
}

/// The difference: poison where `nuw` is given and it is below 0, or `nsw` and it wraps (LLVM Language
/// Reference, "sub Instruction").
pub(crate) fn difference(w: Width, nuw: bool, nsw: bool, a: u64, b: u64) -> Value
    requires left { a < 2 ^ w.bits }
    requires right { b < 2 ^ w.bits }
    ensures { result ≡ subtracted w.bits nuw nsw a b }
{
    let read = signed_difference(signed(a, w), signed(b, w));
    if (nuw && is_below(a, b)) || (nsw && wraps_signed(w, read)) {
        Value::Poison
    } else {
        Value::Number(lowest(u128::from(a) + opposite(w, b), w))
    }
}

/// Whether a number is less than another, so that their difference is below 0.
fn is_below(a: u64, b: u64) -> bool
    ensures { result ≡ nat_lt a b }
{
    a < b
}

/// The number that makes the width's power of 2 with another.
fn opposite(w: Width, b: u64) -> u128
    requires { b < 2 ^ w.bits }
    ensures value { result ≡ 2 ^ w.bits - b }
    ensures below { result ≤ 2 ^ 64 }
{
    (1 << w.get()) - u128::from(b)
}

/// The product: poison where `nuw` or `nsw` is given and it wraps so (LLVM Language Reference, "mul
/// Instruction").
pub(crate) fn product(w: Width, nuw: bool, nsw: bool, a: u64, b: u64) -> Value
    requires left { a < 2 ^ w.bits }
    requires right { b < 2 ^ w.bits }
    ensures { result ≡ multiplied w.bits nuw nsw a b }
{
    let product = u128::from(a) * u128::from(b);
    let read = signed_product(signed(a, w), signed(b, w));
    if (nuw && wraps_unsigned(w, product)) || (nsw && wraps_signed(w, read)) {
        Value::Poison
    } else {
        Value::Number(lowest(product, w))
    }
}

/// The sum of two signed numbers, which doesn't wrap in 128 bits.
fn signed_sum(a: i64, b: i64) -> i128
    ensures { result ≡ a +ℤ b }
{
    i128::from(a) + i128::from(b)
}

/// The difference of two signed numbers, which doesn't wrap in 128 bits.
fn signed_difference(a: i64, b: i64) -> i128
    ensures { result ≡ a +ℤ neg_ℤ b }
{
    i128::from(a) - i128::from(b)
}

/// The product of two signed numbers, which doesn't wrap in 128 bits.
fn signed_product(a: i64, b: i64) -> i128
    ensures { result ≡ a *ℤ b }
{
    i128::from(a) * i128::from(b)
}
