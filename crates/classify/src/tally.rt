//! How often numbers occur.

ghost use Rattle.std.specs.Prelude.{◌≡◌, ◌<◌, ◌↔◌, ℕ, true, length, replicate, slice_index_or, IfOk, IsTrue};
ghost use Rattle.classify.specs.declared.tally.Often.TheVariants.{Never};
ghost use Rattle.classify.specs.Tally.{more, counted, once_if_any};

use std::alloc::{AllocError, Global};
use std::marker::Model;

/// How often a number occurs.
#[derive(Clone, Copy, Debug, PartialEq, Eq)]
pub(crate) enum Often {
    Never,
    Once,
    /// Twice or more often.
    Twice,
}

impl Often {
    /// One time more.
    fn more(self) -> Often
        ensures { result ≡ more self }
    {
        match self {
            Often::Never => Often::Once,
            Often::Once | Often::Twice => Often::Twice,
        }
    }

    /// Whether a name that is defined so often, and used so often, is defined once, or is no name at all.
    fn is_once(self, used: Often) -> bool
        ensures { result ≡ once_if_any self used }
    {
        match (self, used) {
            (Often::Once, _) | (Often::Never, Often::Never) => true,
            _ => false,
        }
    }
}

/// How often each number below a bound occurs.
#[derive(Drop)]
pub(crate) struct Tally {
    counts: Vec<Often>,
}

impl Model for Tally {
    ghost use Rattle.std.specs.Prelude.{List};
    ghost use Rattle.classify.specs.declared.tally.Often.{Often};

    ghost Value = { List Often };

    ghost view = { λ tally. tally.counts.items };
}

impl Tally {
    /// A tally of the numbers below a bound, of which none has occurred.
    pub(crate) fn new(alloc: Global, bound: usize) -> Result<Tally, AllocError>
        ensures { IfOk result (λ tally. tally ≡ replicate bound Never) }
    {
        Ok(Tally {
            counts: vec![in alloc; Often::Never; bound]?,
        })
    }

    /// Counts a number. One that isn't below the bound changes nothing.
    pub(crate) fn count(&mut self, number: u64)
        ensures { self.new ≡ counted self.old number }
    {
        if let Some(often) = self.counts.get_mut(number as usize) {
            *often = often.more();
        }
    }
}

/// Whether each number that is defined or used is defined once, where the tallies have one bound.
pub(crate) fn are_once(defined: &Tally, used: &Tally) -> bool
    requires { length defined.now ≡ length used.now }
    ensures { IsTrue result ↔ ((number : ℕ) → number < length defined.now
        → once_if_any (slice_index_or defined.now number Never) (slice_index_or used.now number Never) ≡ true) }
{
    for (number, often) in defined.counts.iter().enumerate() {
        if !often.is_once(used.counts[number]) {
            return false;
        }
    }
    true
}
