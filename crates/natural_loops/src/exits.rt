//! The exits of a loop.

ghost use Rattle.std.specs.Prelude.{◌≡◌, ◌≢◌, ◌<◌, ◌↔◌, ℕ, All, AllPairs, Contains, IfOk, IsTrue, length, slice_get};
ghost use Rattle.std.specs.Prelude.{take, ◌≤◌, ◌⊎◌};
ghost use Rattle.scev_base.specs.declared.ids.BlockId.{BlockId as Block};
ghost use Rattle.flow_graph.specs.Graph.{IsMarked};
ghost use Rattle.ssa_check.specs.Checked.{Dominates};
ghost use Rattle.natural_loops.specs.Sides.{IsExit, IsPassedEachTurn, AreExits};
ghost use Rattle.natural_loops.specs.Table.{IsRegionOf, loop_of};

use crate::listed::listed;
use crate::region::Region;
use bit_rows::BitRow;
use scev_base::BlockId;
use sqlite_items::Items;
use ssa_check::Checked;
use std::alloc::{AllocError, Global};

/// The exits of a loop, of which it is known which blocks each turn passes.
pub(crate) fn exits(
    alloc: Global,
    c: &Checked,
    region: &Region,
    passed: &BitRow,
) -> Result<Items<BlockId>, AllocError>
    requires loop_ { IsRegionOf c.now.function region.now }
    requires passed { (b : ℕ) → IsMarked passed.now b ↔ IsPassedEachTurn c.now.function (loop_of region.now) b }
    ensures { IfOk result (λ exits. AreExits c.now.function (loop_of region.now) exits) }
{
    let _ = c.function();
    let marks = exit_marks(alloc, c, region)?;
    let exits = listed(alloc, c, &marks)?;
    if all_marked(exits.as_slice(), passed) {
        return in_order(alloc, c, exits.as_slice());
    }
    Ok(exits)
}

/// Marks of the blocks of a loop with an edge out of it.
fn exit_marks(alloc: Global, c: &Checked, region: &Region) -> Result<BitRow, AllocError>
    requires { IsRegionOf c.now.function region.now }
    ensures { IfOk result (λ marks. (b : ℕ) → IsMarked marks b ↔ IsExit c.now.function (loop_of region.now) b) }
{
    let mut marks = BitRow::new(alloc, c.function().labels.len())?;
    for b in 0..marks.len() {
        let block = BlockId(b as u64);
        if region.holds(block) && leaves(region, c.flow().succs(block)) {
            marks.set(b);
        }
    }
    Ok(marks)
}

/// Whether the loop hasn't some of the blocks.
fn leaves(region: &Region, blocks: &[BlockId]) -> bool
    ensures { IsTrue result ↔ ((b : Block) × Contains blocks.now b × (IsMarked region.now.blocks b.0 → ⊥)) }
{
    for b in blocks {
        if !region.holds(*b) {
            return true;
        }
    }
    false
}

/// Whether each of some blocks has a mark.
fn all_marked(blocks: &[BlockId], marks: &BitRow) -> bool
    ensures { IsTrue result ↔ All (λ b. IsMarked marks.now b.0) blocks.now }
{
    for b in blocks {
        if !marks.get(b.0 as usize) {
            return false;
        }
    }
    true
}

/// Blocks of which one dominates the other, of each two, in that order. They are different and have labels.
fn in_order(alloc: Global, c: &Checked, blocks: &[BlockId]) -> Result<Items<BlockId>, AllocError>
    requires labels { All (λ b. b.0 < length c.now.function.labels) blocks.now }
    requires apart { AllPairs (λ a b. a.0 ≢ b.0) blocks.now }
    requires chain { AllPairs (λ a b. Dominates c.now.function a.0 b.0 ⊎ Dominates c.now.function b.0 a.0) blocks.now }
    ensures same { IfOk result (λ found. (b : Block) → Contains found b ↔ Contains blocks.now b) }
    ensures apart { IfOk result (λ found. AllPairs (λ a b. a.0 ≢ b.0) found) }
    ensures ordered { IfOk result (λ found. AllPairs (λ a b. Dominates c.now.function a.0 b.0) found) }
{
    let mut found = Vec::new(alloc);
    for b in blocks {
        let at = place(c, *b, found.as_slice());
        found.insert(at, *b)?;
    }
    Ok(Items::from_vec(found))
}

/// How many of some blocks come before the first one that a block dominates.
fn place(c: &Checked, b: BlockId, blocks: &[BlockId]) -> usize
    requires { b.0 < length c.now.function.labels }
    ensures within { result ≤ length blocks.now }
    ensures before { All (λ a. Dominates c.now.function b.0 a.0 → ⊥) (take result blocks.now) }
    ensures found { (a : Block) → slice_get blocks.now result ≡ Some a → Dominates c.now.function b.0 a.0 }
{
    for at in 0..blocks.len() {
        if c.dominates(b, blocks[at]) {
            return at;
        }
    }
    blocks.len()
}
