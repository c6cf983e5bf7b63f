//! Linear congruences.

ghost use Rattle.std.specs.Prelude.{◌<◌};

use binomial_eval::solve_linear;
use scev_base::Width;

const BYTE: Width = Width { bits: 8 };

const DOUBLE: Width = Width { bits: 64 };

/// Numbers b and d, a width, and the least t with b · t ≡ d modulo 2 to it.
const CONGRUENCES: [(u64, u64, Width, Option<u64>); 10] = [
    (3, 1, BYTE, Some(171)),
    (6, 4, BYTE, Some(86)),
    (6, 7, BYTE, None),
    (0, 0, BYTE, Some(0)),
    (128, 128, BYTE, Some(1)),
    (256, 512, BYTE, Some(0)),
    (1 << 63, 1 << 63, DOUBLE, Some(1)),
    (3, 1, DOUBLE, Some(12_297_829_382_473_034_411)),
    (0, 0, DOUBLE, Some(0)),
    (0, 1, DOUBLE, None),
];

#[test]
fn least_solutions(rt: HostRuntime) {
    for (b, d, w, least) in CONGRUENCES {
        assert_eq!(rt; solve_linear(b, d, w), least);
    }
}

/// The first number below the modulus that solves the congruence.
fn first_solution(b: u64, d: u64, modulus: u64) -> Option<u64>
    requires { 0 < modulus }
{
    (0..modulus).find(|t| b.wrapping_mul(*t) % modulus == d % modulus)
}

#[test]
fn small_widths_against_a_search(rt: HostRuntime) {
    for (w, modulus) in [(Width { bits: 3 }, 8), (Width { bits: 4 }, 16)] {
        assert!(rt; modulus > 0);
        for b in 0..40 {
            for d in 0..40 {
                assert_eq!(rt; solve_linear(b, d, w), first_solution(b, d, modulus));
            }
        }
    }
}
