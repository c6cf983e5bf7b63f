//! The trait of sources.

ghost use Rattle.std.specs.Prelude.{◌≡◌, ℕ, ◌<◌, ◌≤◌, List, [], length, take, Option, IfOk, IfSome, OnErr};
ghost use Rattle.scev_outside.specs.Bytes.{Gave};
ghost use Rattle.scev_outside.specs.Faults.{Rose};

use crate::failed::Failed;

/// Where bytes come from. A source that tells its content says what is `left` of it; every source counts
/// its `faults`, in a number that never falls and ends at 2^64 - 1.
pub trait Source {
    ghost left: { Self → Option (List ℕ) };

    ghost faults: { Self → ℕ };

    /// Puts the next bytes into the front of `buf`, and answers how many. On a `buf` that isn't empty, 0
    /// is the end. `Failed` comes only where the count of faults rose, and takes no byte.
    fn read(&mut self, buf: &mut [u8]) -> Result<usize, Failed>
        ensures within { IfOk result (λ n. n ≤ length buf.old) }
        ensures gave { IfOk result (λ n. Gave (left self.old) (take n buf.new) (left self.new)) }
        ensures end { IfOk result (λ n. n ≡ 0 → 0 < length buf.old → IfSome (left self.old) (λ bytes. bytes ≡ [])) }
        ensures failed { OnErr result (Rose (faults self.old) (faults self.new)) }
        ensures kept { OnErr result (left self.new ≡ left self.old) }
        ensures count { faults self.old ≤ faults self.new };
}
