//! Residues modulo 2^w: what an integer of `w` bits holds.

ghost use Rattle.std.specs.Prelude.{◌≡◌, ◌<◌, ◌≤◌, ◌*◌, ◌^◌, ◌%◌};
ghost use Rattle.scev_base.specs.Residue.{residue, reading};

use crate::width::Width;

/// The residue of `n` modulo 2^w, from 0 to 2^w - 1.
pub fn wrap(n: i128, w: Width) -> u64
    ensures value { result ≡ residue w.bits n }
    ensures below { result < 2 ^ w.bits }
{
    n.rem_euclid(1 << w.get()) as u64
}

/// The lowest bits of `n`, as many as the width has: its residue modulo 2^w (LLVM Language Reference,
/// "trunc .. to").
pub fn trunc(n: u64, to: Width) -> u64
    ensures value { result ≡ n % 2 ^ to.bits }
    ensures below { result < 2 ^ to.bits }
{
    if to.get() == 64 {
        n
    } else {
        n % (1 << to.get())
    }
}

/// The residue `n` read as a signed number: the one from -2^(w-1) to 2^(w-1) - 1 that has it (LLVM Language
/// Reference, "icmp Instruction", the signed predicates).
pub fn signed(n: u64, w: Width) -> i64
    requires { n < 2 ^ w.bits }
    ensures { result ≡ reading w.bits n }
{
    if n < 1 << (w.get() - 1) {
        n as i64
    } else {
        (i128::from(n) - (1 << w.get())) as i64
    }
}

/// The residue `n` in a type at least as wide, filled up by zeros (LLVM Language Reference, "zext .. to").
pub fn zext(n: u64, from: Width, to: Width) -> u64
    requires fits { n < 2 ^ from.bits }
    requires wider { from.bits ≤ to.bits }
    ensures value { result ≡ n }
    ensures below { result < 2 ^ to.bits }
{
    n
}

/// The residue `n` in a type at least as wide, filled up by copies of its sign bit (LLVM Language Reference,
/// "sext .. to"): both have one signed reading.
pub fn sext(n: u64, from: Width, to: Width) -> u64
    requires fits { n < 2 ^ from.bits }
    requires wider { from.bits ≤ to.bits }
    ensures value { result ≡ residue to.bits (reading from.bits n) }
    ensures below { result < 2 ^ to.bits }
{
    wrap(i128::from(signed(n, from)), to)
}

/// The inverse of an odd number modulo 2^w: the residue that makes 1 of it by a product modulo 2^w.
pub fn inverse_odd(n: u64, w: Width) -> u64
    requires { n % 2 ≡ 1 }
    ensures inverse { (n * result) % 2 ^ w.bits ≡ 1 }
    ensures below { result < 2 ^ w.bits }
{
    // Newton's iteration: each round doubles the number of lowest bits that are right. An odd number is
    // its own inverse modulo 8.
    let mut inverse = n;
    let mut right = 3;
    while right < w.get() {
        inverse = inverse.wrapping_mul(2u64.wrapping_sub(n.wrapping_mul(inverse)));
        right *= 2;
    }
    trunc(inverse, w)
}
