//! Residues modulo 2^w as a semiring.

ghost use Rattle.std.specs.Prelude.{◌≡◌, ℕ, ◌+◌, ◌*◌, ◌%◌, ◌^◌, ◌<◌};
ghost use Rattle.rec_algebra.specs.ResidueRing.{residue_semiring};

use crate::ring::Ring;
use scev_base::{Width, trunc};

/// The residues modulo 2 to the width, as numbers below that power.
#[derive(Clone, Copy, Debug, PartialEq, Eq)]
pub struct Residues {
    /// The width in bits.
    pub width: Width,
}

impl Ring for Residues {
    type Item = u64;

    ghost admits = { λ ring n. n < 2 ^ ring.width.bits };

    ghost plus = { λ ring left right. (left + right) % 2 ^ ring.width.bits };

    ghost times = { λ ring left right. (left * right) % 2 ^ ring.width.bits };

    ghost semiring = { λ ring. residue_semiring ring.width.bits };

    fn add(&self, left: u64, right: u64) -> u64 {
        trunc(left.wrapping_add(right), self.width)
    }

    fn mul(&self, left: u64, right: u64) -> u64 {
        trunc(left.wrapping_mul(right), self.width)
    }
}
