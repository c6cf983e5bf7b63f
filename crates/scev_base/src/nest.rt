//! Which loops stand in which.

ghost use Rattle.std.specs.Prelude.{◌≡◌, ◌<◌, ◌^◌, ◌↔◌, length, slice_get, Some, IsTrue};
ghost use Rattle.scev_base.specs.Nest.{Contains, HasDepth, IsNest};

use crate::ids::LoopId;
use sqlite_items::Items;
use std::marker::Model;

/// Which loops stand in which. Contracts see the list of parents: entry k is the number of the loop directly
/// around loop k, None for an outermost one.
#[derive(Drop)]
pub struct LoopNest {
    parents: Items<Option<u64>>,
}

impl Model for LoopNest {
    ghost use Rattle.std.specs.Prelude.{ℕ, List, Option};
    ghost use Rattle.scev_base.specs.Nest.{IsNest};

    ghost Value = { List (Option ℕ) };

    ghost view = { λ nest. nest.parents };

    ghost invariant = { λ nest. IsNest nest.parents };
}

impl LoopNest {
    /// The nest with these parents, in the order of the loops' numbers. Each parent is a loop of the list, at
    /// a lower or a higher number, and the way from parent to parent ends. It takes no memory.
    pub fn new(parents: Items<Option<u64>>) -> LoopNest
        requires { IsNest parents }
        ensures { result ≡ parents }
    {
        LoopNest { parents }
    }

    /// How many loops there are. Their numbers are those below it.
    pub fn loop_count(&self) -> u64
        ensures count { result ≡ length self.now }
        ensures nest { IsNest self.now }
    {
        self.parents.len() as u64
    }

    /// Whether the inner loop stands in the outer one, or is the same. Both are loops of the nest.
    pub fn contains(&self, outer: LoopId, inner: LoopId) -> bool
        requires outer_listed { outer.0 < length self.now }
        requires inner_listed { inner.0 < length self.now }
        ensures { IsTrue result ↔ Contains self.now outer.0 inner.0 }
    {
        let mut at = inner.0;
        while at != outer.0 {
            match self.parent(at) {
                Some(parent) => at = parent,
                None => return false,
            }
        }
        true
    }

    /// How many loops contain a loop of the nest, itself included: 1 for an outermost one.
    pub fn depth(&self, l: LoopId) -> u64
        requires { l.0 < length self.now }
        ensures { HasDepth self.now l.0 result }
    {
        let mut depth = 1;
        let mut at = l.0;
        while let Some(parent) = self.parent(at) {
            at = parent;
            depth += 1;
        }
        depth
    }

    /// The number of the loop directly around a loop.
    fn parent(&self, l: u64) -> Option<u64>
        requires { l < length self.now }
        ensures parent { slice_get self.now l ≡ Some result }
        ensures nest { IsNest self.now }
        ensures counted { length self.now < 2 ^ 64 }
    {
        self.parents.as_slice()[l as usize]
    }
}
