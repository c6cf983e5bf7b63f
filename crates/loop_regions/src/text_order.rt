//! Marked blocks in text order.

ghost use Rattle.std.specs.Prelude.{◌<◌, All, IfOk, length};
ghost use Rattle.loop_regions.specs.TextOrder.{AreListed};

use ir_model::Function;
use scev_base::BlockId;
use sqlite_items::Items;
use std::alloc::{AllocError, Global};

/// The numbers of the marked blocks in text order, each one once: at the first block with it.
pub(crate) fn in_text_order(
    alloc: Global,
    f: &Function,
    mut marks: Vec<bool>,
) -> Result<Items<BlockId>, AllocError>
    requires { All (λ block. block.id.0 < length marks.items) f.now.blocks }
    ensures { IfOk result (λ headers. AreListed f.now marks.items headers) }
{
    let mut headers = Items::new(alloc);
    for block in f.blocks.as_slice() {
        let at = block.id.0 as usize;
        if marks[at] {
            marks[at] = false;
            headers.push(block.id)?;
        }
    }
    Ok(headers)
}
