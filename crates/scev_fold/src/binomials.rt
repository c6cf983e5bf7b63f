//! Binomial coefficients of one number, one after another.

ghost use Rattle.std.specs.Prelude.{◌≡◌, ◌<◌, ◌+◌, ◌^◌, ◌%◌};
ghost use Rattle.binomial_eval.specs.Choose.{choose};
ghost use Rattle.scev_fold.specs.Binomials.{IsBinomial};

use scev_base::{Width, inverse_odd, trunc};

/// The width of the numbers that are kept.
const WORD: Width = Width { bits: 64 };

/// C(n, k), as a power of 2 times an odd number, which is kept modulo 2^64.
#[derive(Clone, Copy, Debug, PartialEq, Eq)]
pub(crate) struct Binomial {
    pub twos: u128,
    pub odd: u64,
}

impl Binomial {
    /// C(n, 0), which is 1.
    pub(crate) fn first(n: u64) -> Binomial
        ensures { IsBinomial n 0 result }
    {
        let _ = n;
        Binomial { twos: 0, odd: 1 }
    }

    /// C(n, k + 1) from C(n, k): n - k times as much, divided by k + 1.
    pub(crate) fn next(self, n: u64, k: u64) -> Binomial
        requires binomial { IsBinomial n k self }
        requires below { k < n }
        ensures { IsBinomial n (k + 1) result }
    {
        let (times, by) = (n - k, k + 1);
        let up = times.trailing_zeros();
        let down = by.trailing_zeros();
        Binomial {
            twos: self.twos + u128::from(up) - u128::from(down),
            odd: self
                .odd
                .wrapping_mul(times >> up)
                .wrapping_mul(inverse_odd(by >> down, WORD)),
        }
    }

    /// The coefficient modulo 2^w.
    pub(crate) fn residue(self, n: u64, k: u64, w: Width) -> u64
        requires { IsBinomial n k self }
        ensures { result ≡ choose n k % 2 ^ w.bits }
    {
        let _ = (n, k);
        if self.twos < 64 {
            trunc(self.odd << self.twos as u32, w)
        } else {
            0
        }
    }
}
