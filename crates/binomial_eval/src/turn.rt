//! What a binomial coefficient, and a recurrence of constants, are at a turn.

ghost use Rattle.std.specs.Prelude.{◌≡◌, ℕ, ◌+◌, ◌-◌, ◌*◌, ◌%◌, ◌^◌, ◌<◌, ◌≤◌, length, drop, slice_index};
ghost use Rattle.scev_base.specs.declared.limits.TheConstants.{DEGREE};
ghost use Rattle.scev_base.specs.Iterated.{iterated};
ghost use Rattle.scev_base.specs.Counting.{one_more};
ghost use Rattle.binomial_eval.specs.Choose.{choose};
ghost use Rattle.binomial_eval.specs.Factorial.{factorial};
ghost use Rattle.binomial_eval.specs.Sums.{modular_add};
ghost use Rattle.binomial_eval.specs.Products.{after_steps, RisesAtMost};

use crate::factorials::factorial_parts;
use scev_base::limits::DEGREE;
use scev_base::{Steps, Width, trunc};

/// The binomial coefficient of `t` at `K`, modulo 2^w: how many ways there are to choose `K` of `t` things
/// (Bachmann, Wang, Zima 1994).
///
/// It is the product of the `K` numbers from `t` down, divided by the factorial of `K`. So it takes `K + 1`
/// multiplications, whatever `t` is.
pub fn binomial<const K: usize>(t: u64, w: Width) -> u64
    requires { K ≤ DEGREE }
    ensures value { result ≡ choose t K % 2 ^ w.bits }
    ensures below { result < 2 ^ w.bits }
{
    let mut steps = Steps::new(());
    let mut product: u128 = 1;
    for k in 0..K {
        product = longer_product(product, t, k, &mut steps);
    }
    coefficient(product, K, w, &mut steps)
}

/// What the recurrence of these parts is at the turn, modulo 2^w: its first part at turn 0, and at each
/// further turn its value at the turn before, and that of the recurrence without its first part, added
/// (Bachmann, Wang, Zima 1994). The first part is below 2^w, and the others count modulo 2^w.
///
/// The turns are not run through: each part takes three multiplications, whatever the turn is. Each is
/// counted.
pub fn eval_rec<L>(parts: &[u64], t: u64, w: Width, steps: &mut Steps<L>) -> u64
    requires some { 1 ≤ length parts.now }
    requires few { length parts.now ≤ DEGREE + 1 }
    requires residue { slice_index parts.now 0 < 2 ^ w.bits }
    ensures value { let first = slice_index parts.now 0 in
        result ≡ iterated (modular_add w.bits) t first (drop 1 parts.now) }
    ensures below { result < 2 ^ w.bits }
    ensures counted { steps.new ≡ after_steps (3 * length parts.now) steps.old }
    ensures at_most { RisesAtMost steps.old steps.new (4 * (length parts.now * length parts.now)) }
{
    let mut sum: u64 = 0;
    let mut product: u128 = 1;
    for (k, part) in parts.iter().enumerate() {
        steps.tick();
        sum = sum.wrapping_add(part.wrapping_mul(coefficient(product, k, w, steps)));
        product = longer_product(product, t, k, steps);
    }
    trunc(sum, w)
}

/// The product of the numbers from `t` down, of which there are `k` so far, with one more, modulo 2^128. The
/// multiplication is counted.
fn longer_product<L>(product: u128, t: u64, k: usize, steps: &mut Steps<L>) -> u128
    ensures value { result ≡ (product * (t - k)) % 2 ^ 128 }
    ensures counted { steps.new ≡ one_more steps.old }
{
    steps.tick();
    product.wrapping_mul(u128::from(t.saturating_sub(k as u64)))
}

/// The binomial coefficient of a turn at `k`, modulo 2^w, from the product of the `k` numbers from the turn
/// down. The multiplication is counted.
fn coefficient<L>(product: u128, k: usize, w: Width, steps: &mut Steps<L>) -> u64
    requires { k ≤ DEGREE }
    ensures value { (t : ℕ) → product ≡ (choose t k * factorial k) % 2 ^ 128
        → result ≡ choose t k % 2 ^ w.bits }
    ensures below { result < 2 ^ w.bits }
    ensures counted { steps.new ≡ one_more steps.old }
{
    // The product is a multiple of the factorial. Its quotient by the factorial's power of 2 is known modulo
    // 2^w where the product is known by so many bits more, and the odd part has an inverse.
    let parts = factorial_parts(k);
    let quotient = product % (1 << (w.get() + parts.twos)) >> parts.twos;
    steps.tick();
    trunc((quotient as u64).wrapping_mul(parts.inverse), w)
}
