//! How many instructions the blocks of a function have.

ghost use Rattle.std.specs.Prelude.{◌≡◌, IfOk};
ghost use Rattle.ir_model.specs.WellMade.{HasIds};
ghost use Rattle.ir_rules.specs.Uses.{size_of};

use ir_model::{Block, Function};
use scev_base::BlockId;
use std::alloc::{AllocError, Global};
use std::marker::Model;

/// A function, and how many instructions each of its blocks has, by the block's number.
#[derive(Drop)]
pub(crate) struct Sizes<'a> {
    f: &'a Function,
    sizes: Vec<usize>,
}

impl<'a> Model for Sizes<'a> {
    ghost use Rattle.std.specs.Prelude.{◌≡◌, ℕ, slice_index_or};
    ghost use Rattle.ir_model.specs.declared.function.Function.{Function};
    ghost use Rattle.ir_rules.specs.Uses.{size_of};

    ghost Value = { Function };

    ghost view = { λ s. s.f.now };

    ghost invariant = { λ s. (b : ℕ) → slice_index_or s.sizes.items b 0 ≡ size_of s.f.now b };
}

impl<'a> Sizes<'a> {
    /// The sizes of a function's blocks, in time linear in their number and that of the labels. The error comes only
    /// where there is no memory for the table.
    pub(crate) fn of(alloc: Global, f: &'a Function) -> Result<Sizes<'a>, AllocError>
        requires { HasIds f.now }
        ensures { IfOk result (λ sizes. sizes ≡ f.now) }
    {
        let blocks = f.blocks.as_slice();
        let mut sizes = vec![in alloc; 0usize; f.labels.len()]?;
        for i in (0..blocks.len()).rev() {
            let block = &blocks[i];
            sizes[block.id.0 as usize] = block.instrs.len();
        }
        Ok(Sizes { f, sizes })
    }

    /// How many instructions a block has, 0 where there is no such block. Constant time.
    pub(crate) fn get(&self, b: BlockId) -> usize
        ensures { result ≡ size_of self.now b.0 }
    {
        match self.sizes.get(b.0 as usize) {
            Some(size) => *size,
            None => 0,
        }
    }

    /// The blocks of the function, in text order.
    pub(crate) fn blocks(&self) -> &'a [Block]
        ensures { result.now ≡ self.now.blocks }
    {
        self.f.blocks.as_slice()
    }
}
