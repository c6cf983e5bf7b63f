//! The loops of a function, by their headers.

ghost use Rattle.std.specs.Prelude.{◌≡◌, ◌<◌, length, IfOk, IfSome, IfNone, slice_index_or, ℕ, false};
ghost use Rattle.ir_model.specs.Shapes.{entry};
ghost use Rattle.ir_model.specs.Walks.{Edge};
ghost use Rattle.natural_loops.specs.Backward.{IsBackEdge, IsBackward};
ghost use Rattle.natural_loops.specs.Table.{IsRegionOf, AreAllLoops};

use crate::backward::backward;
use crate::blocks::blocks_of;
use crate::latches::latches;
use crate::listed::text_blocks;
use bit_rows::BitRow;
use scev_base::BlockId;
use sqlite_items::Items;
use ssa_check::Checked;
use std::alloc::{AllocError, Global};
use std::marker::Model;

/// A loop: its header, its latches in text order, and marks of its blocks by their numbers.
#[derive(Drop)]
pub struct Region {
    pub(crate) header: BlockId,
    pub(crate) latches: Items<BlockId>,
    pub(crate) blocks: BitRow,
}

impl Model for Region {
    ghost use Rattle.natural_loops.specs.Table.{RegionParts};

    ghost Value = { RegionParts };

    ghost view = { λ region. record {
      header = region.header;
      latches = region.latches;
      blocks = region.blocks;
    } };
}

impl Region {
    /// Whether the loop has a block. Constant time; no memory.
    pub(crate) fn holds(&self, b: BlockId) -> bool
        ensures { result ≡ slice_index_or self.now.blocks b.0 false }
    {
        self.blocks.get(b.0 as usize)
    }
}

/// All loops of the function, in the order in which their headers stand in the text.
pub(crate) fn regions(alloc: Global, c: &Checked) -> Result<Items<Region>, AllocError>
    ensures { IfOk result (λ regions. AreAllLoops c.now.function regions) }
{
    let backward = backward(alloc, c)?;
    let mut found = Items::new(alloc);
    for block in text_blocks(c) {
        if let Some(region) = region_at(alloc, c, backward.as_slice(), block.id)? {
            found.push(region)?;
        }
    }
    Ok(found)
}

/// The loop with a block as its header, if there is one.
fn region_at(
    alloc: Global,
    c: &Checked,
    backward: &[Items<usize>],
    h: BlockId,
) -> Result<Option<Region>, AllocError>
    requires header { h.0 < length c.now.function.labels }
    requires backward { IsBackward c.now.function backward.now }
    requires first { (a : ℕ) → Edge c.now.function a (entry c.now.function.blocks) → ⊥ }
    ensures loop_ { IfOk result (λ found. IfSome found (λ region.
        (region.header ≡ h) × IsRegionOf c.now.function region)) }
    ensures none { IfOk result (λ found. IfNone found ((b : ℕ) → IsBackEdge c.now.function b h.0 → ⊥)) }
{
    let latches = latches(alloc, c, h)?;
    if latches.is_empty() {
        return Ok(None);
    }
    let blocks = blocks_of(alloc, c, backward, h, latches.as_slice())?;
    Ok(Some(Region {
        header: h,
        latches,
        blocks,
    }))
}
