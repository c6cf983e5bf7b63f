//! What stands around a loop.

ghost use Rattle.std.specs.Prelude.{◌≡◌, ◌↔◌, ℕ, Some, None, IfOk, length, slice_get, slice_index_or};
ghost use Rattle.flow_graph.specs.Graph.{IsMarked};
ghost use Rattle.natural_loops.specs.Sides.{IsEntering, AreInTextOrder, IsPassedEachTurn};
ghost use Rattle.natural_loops.specs.Table.{RegionParts, AreAllLoops, AreSidesOf, IsInnermost, IsRegionOf, loop_of};
ghost use Rattle.natural_loops.specs.Table.{SidesParts};

use crate::exits::exits;
use crate::listed::listed;
use crate::passed::passed;
use crate::region::Region;
use bit_rows::BitRow;
use scev_base::{BlockId, LoopId};
use sqlite_items::Items;
use ssa_check::Checked;
use std::alloc::{AllocError, Global};
use std::marker::Model;

/// What stands around a loop: its entering blocks, its exits, and marks of the blocks that each turn passes.
#[derive(Drop)]
pub struct Sides {
    pub(crate) entering: Items<BlockId>,
    pub(crate) exits: Items<BlockId>,
    pub(crate) passed: BitRow,
}

impl Model for Sides {
    ghost use Rattle.natural_loops.specs.Table.{SidesParts};

    ghost Value = { SidesParts };

    ghost view = { λ sides. record {
      entering = sides.entering;
      exits = sides.exits;
      passed = sides.passed;
    } };
}

/// For each loop what stands around it.
pub(crate) fn all_sides(
    alloc: Global,
    c: &Checked,
    regions: &[Region],
    innermost: &[Option<LoopId>],
) -> Result<Items<Sides>, AllocError>
    requires loops { AreAllLoops c.now.function regions.now }
    requires innermost { (b : ℕ) → IsInnermost regions.now b (slice_index_or innermost.now b None) }
    ensures size { IfOk result (λ sides. length sides ≡ length regions.now) }
    ensures exact { IfOk result (λ sides. (k : ℕ) (region : RegionParts) (side : SidesParts)
        → slice_get regions.now k ≡ Some region → slice_get sides k ≡ Some side
        → AreSidesOf c.now.function (loop_of region) side) }
{
    let mut all = Items::new(alloc);
    for k in 0..regions.len() {
        let passed = passed(alloc, c, regions, innermost, LoopId(k as u64))?;
        all.push(sides_of(alloc, c, &regions[k], passed)?)?;
    }
    Ok(all)
}

/// What stands around a loop of which it is known which blocks each turn passes.
fn sides_of(
    alloc: Global,
    c: &Checked,
    region: &Region,
    passed: BitRow,
) -> Result<Sides, AllocError>
    requires loop_ { IsRegionOf c.now.function region.now }
    requires passed { (b : ℕ) → IsMarked passed b ↔ IsPassedEachTurn c.now.function (loop_of region.now) b }
    ensures { IfOk result (λ sides. AreSidesOf c.now.function (loop_of region.now) sides) }
{
    let entering = entering(alloc, c, region)?;
    let exits = exits(alloc, c, region, &passed)?;
    Ok(Sides {
        entering,
        exits,
        passed,
    })
}

/// The reachable blocks outside a loop with an edge to its header, in text order.
fn entering(alloc: Global, c: &Checked, region: &Region) -> Result<Items<BlockId>, AllocError>
    requires { IsRegionOf c.now.function region.now }
    ensures { IfOk result (λ found. AreInTextOrder c.now.function
        (IsEntering c.now.function (loop_of region.now)) found) }
{
    let marks = entering_marks(alloc, c, region)?;
    listed(alloc, c, &marks)
}

/// Marks of these blocks.
fn entering_marks(alloc: Global, c: &Checked, region: &Region) -> Result<BitRow, AllocError>
    requires { IsRegionOf c.now.function region.now }
    ensures { IfOk result (λ marks. (b : ℕ) → IsMarked marks b ↔ IsEntering c.now.function (loop_of region.now) b) }
{
    let mut marks = BitRow::new(alloc, c.function().labels.len())?;
    let flow = c.flow();
    for from in flow.preds(region.header) {
        if flow.reachable(*from) && !region.holds(*from) {
            marks.set(from.0 as usize);
        }
    }
    Ok(marks)
}
