//! Counters of steps.

ghost use Rattle.std.specs.Prelude.{◌≡◌};
ghost use Rattle.scev_base.specs.Counting.{one_more};

use std::marker::Model;

/// A counter of steps over a ledger, which contracts see as the number of steps so far. What is generic in
/// the ledger has none to make a counter from, so it can only count on with the one that it is handed. The
/// count stays at 2^64 - 1 once it is there.
#[derive(Drop)]
pub struct Steps<L> {
    count: u64,
    ledger: L,
}

impl<L> Model for Steps<L> {
    ghost use Rattle.std.specs.Prelude.{ℕ};

    ghost Value = { ℕ };

    ghost view = { λ s. s.count };
}

impl<L> Steps<L> {
    /// A counter over this ledger, at 0.
    pub fn new(ledger: L) -> Steps<L>
        ensures { result ≡ 0 }
    {
        Steps { count: 0, ledger }
    }

    /// The steps so far.
    pub fn count(&self) -> u64
        ensures { result ≡ self.now }
    {
        self.count
    }

    /// Counts one step.
    pub fn tick(&mut self)
        ensures { self.new ≡ one_more self.old }
    {
        self.count = self.count.saturating_add(1);
    }
}
