//! Linear congruences modulo 2^w.

ghost use Rattle.std.specs.Prelude.{◌≡◌, ℕ, ◌*◌, ◌%◌, ◌^◌, ◌≤◌, IfSome, IfNone};
ghost use Rattle.binomial_eval.specs.Congruence.{IsSolution, IsLeastSolution};

use scev_base::{Width, inverse_odd, trunc};

/// The least t such that b·t is d modulo 2^w. It is None exactly where there is no such t. Both numbers
/// count modulo 2^w, and b may be 0.
pub fn solve_linear(b: u64, d: u64, w: Width) -> Option<u64>
    ensures least { IfSome result (λ t. IsLeastSolution b d w.bits t) }
    ensures none { IfNone result ((t : ℕ) → IsSolution b d w.bits t → ⊥) }
{
    let factor = trunc(b, w);
    let product = trunc(d, w);
    if factor == 0 {
        return if product == 0 { Some(0) } else { None };
    }
    // Where the factor is 2^twos times an odd number, so is each of its products or a multiple of that, and
    // the odd number has an inverse modulo 2^(w - twos), the period of the solutions.
    let twos = factor.trailing_zeros();
    if product % (1 << twos) != 0 {
        return None;
    }
    let period = Width {
        bits: w.get() - twos,
    };
    let inverse = inverse_odd(factor >> twos, period);
    Some(trunc((product >> twos).wrapping_mul(inverse), period))
}
