//! The blocks of globals.

ghost use Rattle.std.specs.Prelude.{◌≡◌, IfOk};
ghost use Rattle.ir_eval.specs.Globals.{global_blocks as blocks_of};

use crate::initialisers::push_global;
use ir_memory::Blocks;
use ir_model::{Item, Module};
use std::alloc::{AllocError, Global};

/// A block for each global of a module, in order, of what it holds at the start. The error comes only where there is no
/// memory for them.
pub(crate) fn global_blocks(alloc: Global, m: &Module) -> Result<Blocks, AllocError>
    ensures { IfOk result (λ blocks. blocks ≡ blocks_of m.now) }
{
    let mut blocks = Blocks::new(alloc);
    for item in m.items.as_slice() {
        match item {
            Item::Global(global) => {
                let mut bytes = Vec::new(alloc);
                push_global(&mut bytes, global)?;
                let _ = blocks.add_bytes(bytes)?;
            }
            Item::PassedOn(_) | Item::Declare(_) | Item::Define(_) => {}
        }
    }
    Ok(blocks)
}
