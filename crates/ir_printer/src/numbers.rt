//! The numbers of the values and blocks of a function that have no name.

ghost use Rattle.std.specs.Prelude.{◌≡◌, map, IfOk, OnOk};
ghost use Rattle.ir_model.specs.declared.function.ValueInfo.{ValueInfo};
ghost use Rattle.ir_model.specs.Sites.{DefinesValue, UsesValue, DefinesBlock, UsesBlock};
ghost use Rattle.ir_printer.specs.Counting.{start_of, start, counted_value, counted_block, counted};

use ir_model::{Function, Text, ValueInfo};
use scev_base::{BlockId, ValueId};
use sqlite_items::{Items, at};
use std::alloc::{AllocError, Global};

/// The numbers that a walk over a function has given so far, by `ValueId` and by `BlockId`, None where a thing
/// without a name hasn't got one yet; and the number that the next such thing gets. What has a name has a 0
/// here, which nobody reads.
#[derive(Drop)]
pub struct Numbers {
    pub values: Items<Option<u64>>,
    pub blocks: Items<Option<u64>>,
    pub next: u64,
}

/// The entry that a table of numbers begins with.
fn start_of(name: &Option<Text>) -> Option<u64>
    ensures { result ≡ start_of name.now }
{
    match name {
        Some(_) => Some(0),
        None => None,
    }
}

/// The entries of values before anything is counted.
fn start_of_values(alloc: Global, values: &[ValueInfo]) -> Result<Items<Option<u64>>, AllocError>
    ensures { IfOk result (λ numbers. numbers ≡ map (λ (info : ValueInfo). start_of info.name) values.now) }
{
    let mut numbers = Items::new(alloc);
    for info in values {
        numbers.push(start_of(&info.name))?;
    }
    Ok(numbers)
}

/// The entries of blocks before anything is counted.
fn start_of_blocks(alloc: Global, labels: &[Option<Text>]) -> Result<Items<Option<u64>>, AllocError>
    ensures { IfOk result (λ numbers. numbers ≡ map start_of labels.now) }
{
    let mut numbers = Items::new(alloc);
    for label in labels {
        numbers.push(start_of(label))?;
    }
    Ok(numbers)
}

impl Numbers {
    /// The tables of a function before anything is counted.
    pub fn start(alloc: Global, function: &Function) -> Result<Numbers, AllocError>
        ensures { IfOk result (λ numbers. numbers ≡ start function.now) }
    {
        Ok(Numbers {
            values: start_of_values(alloc, function.values.as_slice())?,
            blocks: start_of_blocks(alloc, function.labels.as_slice())?,
            next: 0,
        })
    }

    /// Gives a value the next number, where it has none. More than 2^64 - 1 things are out of memory.
    #[tactic(auto, unfolding(crate::specs::Counting::counted_value))]
    fn count_value(&mut self, value: ValueId) -> Result<(), AllocError>
        ensures { OnOk result (self.new ≡ counted_value self.old value.0) }
    {
        if let Some(None) = at(self.values.as_slice(), value.0 as usize) {
            let number = self.next;
            self.next = number.checked_add(1).ok_or(AllocError)?;
            self.values.set(value.0 as usize, Some(number));
        }
        Ok(())
    }

    /// Gives a block the next number, where it has none.
    #[tactic(auto, unfolding(crate::specs::Counting::counted_block))]
    fn count_block(&mut self, block: BlockId) -> Result<(), AllocError>
        ensures { OnOk result (self.new ≡ counted_block self.old block.0) }
    {
        if let Some(None) = at(self.blocks.as_slice(), block.0 as usize) {
            let number = self.next;
            self.next = number.checked_add(1).ok_or(AllocError)?;
            self.blocks.set(block.0 as usize, Some(number));
        }
        Ok(())
    }

    /// Counts a value where it is defined, unless uses are counted.
    #[tactic(auto, unfolding(crate::specs::Counting::counted))]
    pub fn define_value(&mut self, uses: bool, value: ValueId) -> Result<(), AllocError>
        ensures { OnOk result (self.new ≡ counted uses self.old (DefinesValue value.0)) }
    {
        if uses {
            Ok(())
        } else {
            self.count_value(value)
        }
    }

    /// Counts a value where it is used, if uses are counted.
    #[tactic(auto, unfolding(crate::specs::Counting::counted))]
    pub fn use_value(&mut self, uses: bool, value: ValueId) -> Result<(), AllocError>
        ensures { OnOk result (self.new ≡ counted uses self.old (UsesValue value.0)) }
    {
        if uses {
            self.count_value(value)
        } else {
            Ok(())
        }
    }

    /// Counts a block where it is defined, unless uses are counted.
    #[tactic(auto, unfolding(crate::specs::Counting::counted))]
    pub fn define_block(&mut self, uses: bool, block: BlockId) -> Result<(), AllocError>
        ensures { OnOk result (self.new ≡ counted uses self.old (DefinesBlock block.0)) }
    {
        if uses {
            Ok(())
        } else {
            self.count_block(block)
        }
    }

    /// Counts a block where it is used, if uses are counted.
    #[tactic(auto, unfolding(crate::specs::Counting::counted))]
    pub fn use_block(&mut self, uses: bool, block: BlockId) -> Result<(), AllocError>
        ensures { OnOk result (self.new ≡ counted uses self.old (UsesBlock block.0)) }
    {
        if uses {
            self.count_block(block)
        } else {
            Ok(())
        }
    }
}
