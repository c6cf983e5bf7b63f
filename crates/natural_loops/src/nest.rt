//! Which loop stands in which.

ghost use Rattle.std.specs.Prelude.{◌≡◌, ℕ, Option, Some, None, IfOk, length, slice_get, slice_index_or};
ghost use Rattle.scev_base.specs.Nest.{IsNest};
ghost use Rattle.natural_loops.specs.Table.{RegionParts, AreAllLoops, IsInnermost, IsParent};

use crate::region::Region;
use crate::smallest::smallest;
use scev_base::{BlockId, LoopId};
use sqlite_items::Items;
use ssa_check::Checked;
use std::alloc::{AllocError, Global};

/// For each loop the number of the smallest one around it.
pub(crate) fn parents(
    alloc: Global,
    c: &Checked,
    regions: &[Region],
) -> Result<Items<Option<u64>>, AllocError>
    requires { AreAllLoops c.now.function regions.now }
    ensures size { IfOk result (λ parents. length parents ≡ length regions.now) }
    ensures exact { IfOk result (λ parents. (k : ℕ) (region : RegionParts) (parent : Option ℕ)
        → slice_get regions.now k ≡ Some region → slice_get parents k ≡ Some parent
        → IsParent regions.now region parent) }
    ensures nest { IfOk result (λ parents. IsNest parents) }
{
    let _ = c.function();
    let mut parents = Items::new(alloc);
    for region in regions {
        let around = smallest(regions, region.header, Some(region.header));
        parents.push(around.map(|at| at as u64))?;
    }
    Ok(parents)
}

/// For the number of each label that of the innermost loop that has the block.
pub(crate) fn innermost(
    alloc: Global,
    c: &Checked,
    regions: &[Region],
) -> Result<Items<Option<LoopId>>, AllocError>
    requires { AreAllLoops c.now.function regions.now }
    ensures { IfOk result (λ innermost. (b : ℕ) → IsInnermost regions.now b (slice_index_or innermost b None)) }
{
    let mut innermost = Items::new(alloc);
    for b in 0..c.function().labels.len() {
        let least = smallest(regions, BlockId(b as u64), None);
        innermost.push(least.map(|at| LoopId(at as u64)))?;
    }
    Ok(innermost)
}
