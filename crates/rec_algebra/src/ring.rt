//! Commutative semirings.

ghost use Rattle.std.specs.Prelude.{◌≡◌};
ghost use Rattle.rec_algebra.specs.Semiring.{IsSemiring};

/// A commutative semiring of items. No zero and no one is asked for. Both operations always answer.
pub trait Ring {
    /// What is added and multiplied.
    type Item: Copy;

    // The items that it admits.
    ghost admits: { Self → Self.Item → Type 0 };

    // The sum of two items.
    ghost plus: { Self → Self.Item → Self.Item → Self.Item };

    // The product of two items.
    ghost times: { Self → Self.Item → Self.Item → Self.Item };

    /// The sum of two admitted items, which is admitted too.
    fn add(&self, left: Self::Item, right: Self::Item) -> Self::Item
        requires left { admits self.now left }
        requires right { admits self.now right }
        ensures { result ≡ plus self.now left right };

    /// The product of two admitted items, which is admitted too.
    fn mul(&self, left: Self::Item, right: Self::Item) -> Self::Item
        requires left { admits self.now left }
        requires right { admits self.now right }
        ensures { result ≡ times self.now left right };

    // The laws of a commutative semiring, on admitted items.
    ghost semiring: { (ring : Self) → IsSemiring (admits ring) (plus ring) (times ring) };
}
