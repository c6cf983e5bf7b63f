//! The smallest loop that has a block.

ghost use Rattle.std.specs.Prelude.{◌≡◌, ◌<◌, ℕ, false, Some, None, IfSome, IsTrue, length, slice_get, slice_index_or};
ghost use Rattle.ir_model.specs.declared.function.Function.{Function as AnyFunction};
ghost use Rattle.flow_graph.specs.Graph.{IsMarked};
ghost use Rattle.natural_loops.specs.Table.{RegionParts, AreAllLoops, IsSmallest};

use crate::region::Region;
use scev_base::BlockId;

/// The position of the smallest of a function's loops that has a block, and that hasn't the other header, if one is
/// given.
pub(crate) fn smallest(regions: &[Region], b: BlockId, other: Option<BlockId>) -> Option<usize>
    ensures within { IfSome result (λ at. at < length regions.now) }
    ensures exact { (f : AnyFunction) → AreAllLoops f regions.now → IsSmallest regions.now
        (λ region. IsMarked region.blocks b.0 × (other ≡ Some region.header → ⊥)) result }
{
    let mut least: Option<usize> = None;
    for at in 0..regions.len() {
        let region = &regions[at];
        if region.holds(b)
            && other != Some(region.header)
            && is_inside(regions, region.header, least)
        {
            least = Some(at);
        }
    }
    least
}

/// Whether the loop at a position, if one is given, has a block.
fn is_inside(regions: &[Region], b: BlockId, at: Option<usize>) -> bool
    requires { IfSome at (λ at. at < length regions.now) }
    ensures none { at ≡ None → IsTrue result }
    ensures some { (k : ℕ) (region : RegionParts) → at ≡ Some k → slice_get regions.now k ≡ Some region
        → result ≡ slice_index_or region.blocks b.0 false }
{
    match at {
        Some(k) => regions[k].holds(b),
        None => true,
    }
}
