//! What is shown of the values, blocks and globals of a function.

ghost use Rattle.std.specs.Prelude.{◌≡◌, [], ◌∷◌, ◌++◌, unwrap_or, slice_get, IfOk, OnOk};
ghost use Rattle.ir_grammar.specs.Printing.{name_text, shown_in, block_text};
ghost use Rattle.ir_model.specs.WellMade.{HasIds};
ghost use Rattle.ir_printer.specs.Shown.{number_or_next, shown};

use crate::names::push_text_name;
use crate::numbers::Numbers;
use crate::types::push_number;
use crate::walk::walk_function;
use ir_model::{Function, Text, ValueInfo};
use scev_base::{BlockId, ValueId};
use sqlite_items::at;
use std::alloc::{AllocError, Global};

/// A function, the names of its module's globals, and the numbers of its values and blocks without a name. A
/// text name is shown as it is, or as a string where it is no word; what has none is shown as its number.
#[derive(Drop)]
pub struct Names<'a> {
    pub function: &'a Function,
    pub globals: &'a [Text],
    pub numbers: Numbers,
}

impl<'a> Names<'a> {
    /// The names of a function's values and blocks: those that its text has.
    ///
    /// Time linear in the function.
    pub fn of(
        alloc: Global,
        globals: &'a [Text],
        function: &'a Function,
    ) -> Result<Names<'a>, AllocError>
        requires { HasIds function.now }
        ensures { IfOk result (λ names. shown names ≡ shown_in globals.now function.now) }
    {
        let mut numbers = Numbers::start(alloc, function)?;
        walk_function(&mut numbers, false, function)?;
        walk_function(&mut numbers, true, function)?;
        Ok(Names {
            function,
            globals,
            numbers,
        })
    }
}

/// The number in a table, and the next one for what has none there.
fn number_or_next(next: u64, numbers: &[Option<u64>], id: u64) -> u64
    ensures { result ≡ number_or_next next (slice_get numbers.now id) }
{
    match at(numbers, id as usize) {
        Some(Some(number)) => *number,
        Some(None) => next,
        None => next,
    }
}

/// Appends `%name` of a value.
#[tactic(auto, unfolding(crate::specs::Shown::shown))]
pub fn push_value_name(
    out: &mut Vec<u8>,
    names: &Names<'_>,
    value: ValueId,
) -> Result<(), AllocError>
    ensures { OnOk result (out.new.items ≡ out.old.items ++ 37 ∷ (shown names.now).values value.0) }
{
    out.push(b'%')?;
    let numbers = &names.numbers;
    match at(names.function.values.as_slice(), value.0 as usize) {
        Some(
            ValueInfo {
                name: Some(name),
                ..
            },
        ) => push_text_name(out, name.as_slice()),
        Some(ValueInfo { name: None, .. }) => push_number(
            out,
            number_or_next(numbers.next, numbers.values.as_slice(), value.0),
        ),
        None => push_number(
            out,
            number_or_next(numbers.next, numbers.values.as_slice(), value.0),
        ),
    }
}

/// Appends the name of a block, without a sigil.
#[tactic(auto, unfolding(crate::specs::Shown::shown))]
pub fn push_label(out: &mut Vec<u8>, names: &Names<'_>, block: BlockId) -> Result<(), AllocError>
    ensures { OnOk result (out.new.items ≡ out.old.items ++ (shown names.now).labels block.0) }
{
    let numbers = &names.numbers;
    match at(names.function.labels.as_slice(), block.0 as usize) {
        Some(Some(name)) => push_text_name(out, name.as_slice()),
        Some(None) => push_number(
            out,
            number_or_next(numbers.next, numbers.blocks.as_slice(), block.0),
        ),
        None => push_number(
            out,
            number_or_next(numbers.next, numbers.blocks.as_slice(), block.0),
        ),
    }
}

/// Appends `%name` of a block.
pub fn push_block_name(
    out: &mut Vec<u8>,
    names: &Names<'_>,
    block: BlockId,
) -> Result<(), AllocError>
    ensures { OnOk result (out.new.items ≡ out.old.items ++ block_text (shown names.now) block.0) }
{
    out.push(b'%')?;
    push_label(out, names, block)
}

/// Appends `@name` of a global: an id is its place in the module's table.
#[tactic(auto, unfolding(crate::specs::Shown::shown))]
pub fn push_global_name(out: &mut Vec<u8>, names: &Names<'_>, global: u64) -> Result<(), AllocError>
    ensures { OnOk result (out.new.items
        ≡ out.old.items ++ 64 ∷ name_text (unwrap_or (slice_get (shown names.now).globals global) [])) }
{
    out.push(b'@')?;
    match at(names.globals, global as usize) {
        Some(name) => push_text_name(out, name.as_slice()),
        None => push_text_name(out, &[]),
    }
}
