//! Memory and addresses.

ghost use Rattle.std.specs.Prelude.{◌≡◌, [], ◌++◌, codes, OnOk};
ghost use Rattle.std.specs.List.{flat_map};
ghost use Rattle.ir_model.specs.declared.op.Op.TheVariants.{Gep};
ghost use Rattle.ir_grammar.specs.Printing.{typed_text, op_text};
ghost use Rattle.ir_printer.specs.Kinds.{OfMemory, kind_of};
ghost use Rattle.ir_printer.specs.Shown.{shown};

use crate::operand::{push_of_type, push_pointer, push_typed};
use crate::shown::Names;
use crate::types::push_type;
use crate::words::{push_align, push_flag, words_at};
use ir_model::{IrType, Op, Operand, Text, TypedOperand};
use std::alloc::AllocError;

/// Appends indices, a comma before each.
fn push_indices(
    out: &mut Vec<u8>,
    names: &Names<'_>,
    indices: &[TypedOperand],
) -> Result<(), AllocError>
    ensures { OnOk result (out.new.items
        ≡ out.old.items ++ flat_map (λ index. codes ", " ++ typed_text (shown names.now) index) indices.now) }
{
    for index in indices {
        out.extend_from_slice(b", ")?;
        push_typed(out, names, index)?;
    }
    Ok(())
}

/// Appends `getelementptr`.
#[tactic(auto, unfolding(ir_grammar::specs::Printing::op_text))]
fn push_gep(
    out: &mut Vec<u8>,
    names: &Names<'_>,
    inbounds: bool,
    kind: &IrType,
    base: Operand,
    indices: &[TypedOperand],
) -> Result<(), AllocError>
    ensures { OnOk result (out.new.items
        ≡ out.old.items ++ op_text (shown names.now) (Gep inbounds kind.now base indices.now) []) }
{
    out.extend_from_slice(b"getelementptr ")?;
    push_flag(out, inbounds, b"inbounds")?;
    push_type(out, kind)?;
    out.extend_from_slice(b", ")?;
    push_pointer(out, names, base)?;
    push_indices(out, names, indices)
}

/// Appends `alloca`, `load`, `store` or `getelementptr`.
#[tactic(auto, unfolding(ir_grammar::specs::Printing::op_text))]
pub fn push_of_memory(
    out: &mut Vec<u8>,
    names: &Names<'_>,
    op: &Op,
    words: &[Text],
) -> Result<(), AllocError>
    requires { kind_of op.now ≡ OfMemory }
    ensures { OnOk result (out.new.items ≡ out.old.items ++ op_text (shown names.now) op.now words.now) }
{
    match op {
        Op::Alloca { kind } => {
            out.extend_from_slice(b"alloca ")?;
            push_type(out, kind)?;
            push_align(out, words_at(words, 0))
        }
        Op::Load { kind, from } => {
            out.extend_from_slice(b"load ")?;
            push_type(out, kind)?;
            out.extend_from_slice(b", ")?;
            push_pointer(out, names, *from)?;
            push_align(out, words_at(words, 0))
        }
        Op::Store { kind, value, to } => {
            out.extend_from_slice(b"store ")?;
            push_of_type(out, names, kind, *value)?;
            out.extend_from_slice(b", ")?;
            push_pointer(out, names, *to)?;
            push_align(out, words_at(words, 0))
        }
        Op::Gep {
            inbounds,
            kind,
            base,
            indices,
        } => push_gep(out, names, *inbounds, kind, *base, indices.as_slice()),
        _ => unreachable!(),
    }
}
