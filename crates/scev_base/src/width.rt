//! Widths of integers.

ghost use Rattle.std.specs.Prelude.{◌≡◌, ◌≤◌, ◌↔◌, IsSome, IfSome};

/// The width of an integer type, from 1 to 64 bits.
#[derive(Clone, Copy, Debug, PartialEq, Eq)]
pub struct Width {
    /// The width in bits.
    pub bits: u32,
    pub ghost at_least_one: { 1 ≤ bits },
    pub ghost at_most_64: { bits ≤ 64 },
}

impl Width {
    /// The width of `n` bits. It is None exactly outside 1 to 64.
    pub fn new(n: u32) -> Option<Width>
        ensures valid { IsSome result ↔ ((1 ≤ n) × (n ≤ 64)) }
        ensures value { IfSome result (λ w. w.bits ≡ n) }
    {
        if 1 <= n && n <= 64 {
            Some(Width { bits: n })
        } else {
            None
        }
    }

    /// The width in bits, from 1 to 64.
    pub fn get(self) -> u32
        ensures { result ≡ self.bits }
    {
        self.bits
    }
}
