//! Conversions, choices of a value, and `freeze`.

ghost use Rattle.std.specs.Prelude.{◌≡◌, [], ◌∷◌, ◌++◌, codes, OnOk};
ghost use Rattle.ir_grammar.specs.Printing.{cast_text, entry_text, joined, op_text};
ghost use Rattle.ir_printer.specs.Kinds.{Given, kind_of};
ghost use Rattle.ir_printer.specs.Shown.{shown};

use crate::operand::{push_condition, push_of_type, push_operand, push_typed};
use crate::shown::{Names, push_block_name};
use crate::types::push_type;
use crate::words::push_flag;
use ir_model::{CastOp, IrType, Op, PhiEntry};
use std::alloc::AllocError;

/// Appends the word of a conversion and its flag.
fn push_cast(out: &mut Vec<u8>, op: CastOp, nneg: bool) -> Result<(), AllocError>
    ensures { OnOk result (out.new.items ≡ out.old.items ++ cast_text op nneg) }
{
    match op {
        CastOp::Zext => {
            out.extend_from_slice(b"zext ")?;
            push_flag(out, nneg, b"nneg")
        }
        CastOp::Sext => out.extend_from_slice(b"sext "),
        CastOp::Trunc => out.extend_from_slice(b"trunc "),
    }
}

/// Appends an entry of a phi, `[ v, %block ]`.
fn push_entry(
    out: &mut Vec<u8>,
    names: &Names<'_>,
    kind: &IrType,
    entry: &PhiEntry,
) -> Result<(), AllocError>
    ensures { OnOk result (out.new.items ≡ out.old.items ++ entry_text (shown names.now) kind.now entry.now) }
{
    out.extend_from_slice(b"[ ")?;
    push_operand(out, names, kind, entry.value)?;
    out.extend_from_slice(b", ")?;
    push_block_name(out, names, entry.from)?;
    out.extend_from_slice(b" ]")
}

/// Appends the entries of a phi, with commas between them.
fn push_entries(
    out: &mut Vec<u8>,
    names: &Names<'_>,
    kind: &IrType,
    entries: &[PhiEntry],
) -> Result<(), AllocError>
    ensures { OnOk result (out.new.items
        ≡ out.old.items ++ joined (entry_text (shown names.now) kind.now) (codes ", ") entries.now) }
{
    let Some((first, rest)) = entries.split_first() else {
        return Ok(());
    };
    push_entry(out, names, kind, first)?;
    for entry in rest {
        out.extend_from_slice(b", ")?;
        push_entry(out, names, kind, entry)?;
    }
    Ok(())
}

/// Appends a conversion, `select`, `phi` or `freeze`.
#[tactic(auto, unfolding(ir_grammar::specs::Printing::op_text))]
pub fn push_given(out: &mut Vec<u8>, names: &Names<'_>, op: &Op) -> Result<(), AllocError>
    requires { kind_of op.now ≡ Given }
    ensures { OnOk result (out.new.items ≡ out.old.items ++ op_text (shown names.now) op.now []) }
{
    match op {
        Op::Cast {
            op,
            nneg,
            from,
            value,
            to,
        } => {
            push_cast(out, *op, *nneg)?;
            push_of_type(out, names, from, *value)?;
            out.extend_from_slice(b" to ")?;
            push_type(out, to)
        }
        Op::Select { cond, yes, no } => {
            out.extend_from_slice(b"select ")?;
            push_condition(out, names, *cond)?;
            out.extend_from_slice(b", ")?;
            push_typed(out, names, yes)?;
            out.extend_from_slice(b", ")?;
            push_typed(out, names, no)
        }
        Op::Phi { kind, entries } => {
            out.extend_from_slice(b"phi ")?;
            push_type(out, kind)?;
            out.push(b' ')?;
            push_entries(out, names, kind, entries.as_slice())
        }
        Op::Freeze { kind, value } => {
            out.extend_from_slice(b"freeze ")?;
            push_of_type(out, names, kind, *value)
        }
        _ => unreachable!(),
    }
}
