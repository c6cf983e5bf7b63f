//! Small parts of an expression's text: numbers, and the words between parts.

ghost use Rattle.std.specs.Prelude.{◌≡◌, ◌++◌, codes, slice_get, OnOk};
ghost use Rattle.ir_model.specs.declared.types.IrType.TheVariants.{Int};
ghost use Rattle.ir_grammar.specs.Printing.{type_text};
ghost use Rattle.ir_printer.specs.Shown.{shown};
ghost use Rattle.scev_text.specs.Text.{constant_text, header_text};

use ir_model::IrType;
use ir_printer::{Names, push_block_name, push_numeral, push_type};
use scev_base::{BlockId, LoopId, Width};
use sqlite_items::at;
use std::alloc::AllocError;

/// Appends a number of w bits by its signed reading; `true` or `false` at one bit.
pub(crate) fn push_constant(out: &mut Vec<u8>, w: Width, n: u64) -> Result<(), AllocError>
    ensures { OnOk result (out.new.items ≡ out.old.items ++ constant_text w.bits n) }
{
    push_numeral(out, &IrType::Int(w.get()), i128::from(n))
}

/// Appends the type of integers of w bits.
pub(crate) fn push_integer_type(out: &mut Vec<u8>, w: Width) -> Result<(), AllocError>
    ensures { OnOk result (out.new.items ≡ out.old.items ++ type_text (Int w.bits)) }
{
    push_type(out, &IrType::Int(w.get()))
}

/// Appends `%name` of a loop's header; nothing where the loop isn't among these.
pub(crate) fn push_header(
    out: &mut Vec<u8>,
    names: &Names<'_>,
    headers: &[BlockId],
    l: LoopId,
) -> Result<(), AllocError>
    ensures { OnOk result (out.new.items
        ≡ out.old.items ++ header_text (shown names.now) (slice_get headers.now l.0)) }
{
    match at(headers, l.0 as usize) {
        Some(header) => push_block_name(out, names, *header),
        None => Ok(()),
    }
}
