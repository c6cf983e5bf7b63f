//! Factorials, each as a power of 2 times an odd number.

ghost use Rattle.std.specs.Prelude.{◌≡◌, ◌*◌, ◌%◌, ◌^◌, ◌≤◌, Some, slice_get};
ghost use Rattle.scev_base.specs.declared.limits.TheConstants.{DEGREE};
ghost use Rattle.binomial_eval.specs.Factorial.{factorial};

use scev_base::limits::DEGREE;

/// A factorial: 2 to the number of its twos, times its odd part.
#[derive(Clone, Copy, Debug, PartialEq, Eq)]
pub struct Factorial {
    /// How many times 2 divides the factorial.
    pub twos: u32,
    /// What is left then, an odd number.
    pub odd: u64,
    /// The inverse of the odd part modulo 2^64.
    pub inverse: u64,
}

/// How many factorials there are, from that of 0 to that of the greatest degree.
const COUNT: usize = DEGREE + 1;

/// The factorials of 0 to 8, in order. [`factorial_parts`] says what is true of them.
pub const FACTORIALS: [Factorial; COUNT] = [
    Factorial {
        twos: 0,
        odd: 1,
        inverse: 1,
    },
    Factorial {
        twos: 0,
        odd: 1,
        inverse: 1,
    },
    Factorial {
        twos: 1,
        odd: 1,
        inverse: 1,
    },
    Factorial {
        twos: 1,
        odd: 3,
        inverse: 0xAAAA_AAAA_AAAA_AAAB,
    },
    Factorial {
        twos: 3,
        odd: 3,
        inverse: 0xAAAA_AAAA_AAAA_AAAB,
    },
    Factorial {
        twos: 3,
        odd: 15,
        inverse: 0xEEEE_EEEE_EEEE_EEEF,
    },
    Factorial {
        twos: 4,
        odd: 45,
        inverse: 0x4FA4_FA4F_A4FA_4FA5,
    },
    Factorial {
        twos: 4,
        odd: 315,
        inverse: 0x2FF2_FF2F_F2FF_2FF3,
    },
    Factorial {
        twos: 7,
        odd: 315,
        inverse: 0x2FF2_FF2F_F2FF_2FF3,
    },
];

/// The entry of the table for the factorial of `k`, from 0 to 8.
///
/// The power and the odd part make the factorial, the inverse undoes a product with the odd part modulo
/// 2^64, and there are at most 7 twos.
#[tactic(auto, unfolding(crate::specs::Factorial::factorial))]
pub fn factorial_parts(k: usize) -> Factorial
    requires { k ≤ DEGREE }
    ensures entry { slice_get FACTORIALS k ≡ Some result }
    ensures whole { 2 ^ result.twos * result.odd ≡ factorial k }
    ensures inverse { (result.odd * result.inverse) % 2 ^ 64 ≡ 1 }
    ensures few { result.twos ≤ 7 }
{
    FACTORIALS[k]
}
