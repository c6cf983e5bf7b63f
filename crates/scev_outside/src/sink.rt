//! The trait of sinks.

ghost use Rattle.std.specs.Prelude.{◌≡◌, ℕ, ◌<◌, ◌≤◌, List, length, take, Option, IfOk, OnErr};
ghost use Rattle.scev_outside.specs.Bytes.{Appended};
ghost use Rattle.scev_outside.specs.Faults.{Rose};

use crate::failed::Failed;

/// Where bytes go. A sink that tells its content says what it has `taken` so far; every sink counts its
/// `faults`, in a number that never falls and ends at 2^64 - 1.
pub trait Sink {
    ghost taken: { Self → Option (List ℕ) };

    ghost faults: { Self → ℕ };

    /// Appends the first bytes of `piece`, and answers how many: at least one of a piece that isn't
    /// empty. `Failed` comes only where the count of faults rose, and appends nothing.
    fn write(&mut self, piece: &[u8]) -> Result<usize, Failed>
        ensures within { IfOk result (λ n. n ≤ length piece.now) }
        ensures some { IfOk result (λ n. 0 < length piece.now → 0 < n) }
        ensures appended { IfOk result (λ n. Appended (taken self.old) (take n piece.now) (taken self.new)) }
        ensures failed { OnErr result (Rose (faults self.old) (faults self.new)) }
        ensures kept { OnErr result (taken self.new ≡ taken self.old) }
        ensures count { faults self.old ≤ faults self.new };
}
