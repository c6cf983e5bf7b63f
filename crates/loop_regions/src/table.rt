//! The table of a function's loops.

ghost use Rattle.std.specs.Prelude.{◌≡◌, ◌<◌, All, Contains, IfOk, IfSome, IfNone, Some, slice_get};
ghost use Rattle.loop_regions.specs.Table.{AreNumbered};

use scev_base::{BlockId, LoopId};
use sqlite_items::Items;
use std::alloc::{AllocError, Global};
use std::marker::Model;

/// The loops of a function, by their headers, in the order in which the headers stand in the text. So far
/// it has the loops of one block alone. A loop's number is its position.
#[derive(Drop)]
pub struct LoopTable {
    headers: Items<BlockId>,
    /// The loop that holds a block, by the block's number.
    innermost: Items<Option<LoopId>>,
}

impl Model for LoopTable {
    ghost use Rattle.std.specs.Prelude.{List};
    ghost use Rattle.scev_base.specs.declared.ids.BlockId.{BlockId};

    ghost Value = { List BlockId };

    ghost use Rattle.loop_regions.specs.Table.{AreNumbered};

    ghost view = { λ t. t.headers };

    ghost invariant = { λ t. AreNumbered t.headers t.innermost };
}

impl LoopTable {
    /// The table of the loops with these headers, which stand among so many labels.
    pub(crate) fn of_headers(
        alloc: Global,
        headers: Items<BlockId>,
        labels: usize,
    ) -> Result<LoopTable, AllocError>
        requires { All (λ b. b.0 < labels) headers }
        ensures { IfOk result (λ table. table ≡ headers) }
    {
        let innermost = numbered(alloc, headers.as_slice(), labels)?;
        Ok(LoopTable { headers, innermost })
    }

    /// The headers of the loops, in text order.
    pub fn headers(&self) -> &[BlockId]
        ensures { result.now ≡ self.now }
    {
        self.headers.as_slice()
    }

    /// The innermost loop that holds the block. It is None exactly where no loop does. It takes constant
    /// time.
    pub fn innermost(&self, b: BlockId) -> Option<LoopId>
        ensures some { IfSome result (λ l. slice_get self.now l.0 ≡ Some b) }
        ensures none { IfNone result (Contains self.now b → ⊥) }
    {
        match self.innermost.get(b.0 as usize) {
            Some(found) => *found,
            None => None,
        }
    }
}

/// For each of so many labels the number of the loop with this header.
fn numbered(
    alloc: Global,
    headers: &[BlockId],
    labels: usize,
) -> Result<Items<Option<LoopId>>, AllocError>
    requires { All (λ b. b.0 < labels) headers.now }
    ensures { IfOk result (λ innermost. AreNumbered headers.now innermost) }
{
    let mut innermost = vec![in alloc; None; labels]?;
    for (number, header) in headers.iter().enumerate() {
        innermost[header.0 as usize] = Some(LoopId(number as u64));
    }
    Ok(Items::from_vec(innermost))
}
