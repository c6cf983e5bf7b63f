//! Calls.

ghost use Rattle.std.specs.Prelude.{◌≡◌, ◌++◌, codes, drop, OnOk};
ghost use Rattle.ir_model.specs.declared.op.Op.TheVariants.{Call};
ghost use Rattle.ir_grammar.specs.Printing.{argument_text, arguments_text, before_space, name_text, op_text, type_text, words_at};
ghost use Rattle.ir_printer.specs.Shown.{shown};

use crate::names::push_text_name;
use crate::operand::push_operand;
use crate::shown::Names;
use crate::types::push_type;
use crate::words::{push_before_space, push_behind_space, words_at};
use ir_model::{IrType, Text, TypedOperand};
use std::alloc::AllocError;

/// Appends an argument, its words between its type and its operand.
fn push_argument(
    out: &mut Vec<u8>,
    names: &Names<'_>,
    words: &[u8],
    arg: &TypedOperand,
) -> Result<(), AllocError>
    ensures { OnOk result (out.new.items ≡ out.old.items ++ argument_text (shown names.now) words.now arg.now) }
{
    push_type(out, &arg.kind)?;
    out.push(b' ')?;
    push_before_space(out, words)?;
    push_operand(out, names, &arg.kind, arg.value)
}

/// Appends arguments with commas between them. Their words stand in `words` from its third place on.
fn push_arguments(
    out: &mut Vec<u8>,
    names: &Names<'_>,
    words: &[Text],
    args: &[TypedOperand],
) -> Result<(), AllocError>
    ensures { OnOk result (out.new.items
        ≡ out.old.items ++ arguments_text (shown names.now) (drop 2 words.now) args.now) }
{
    let Some((first, rest)) = args.split_first() else {
        return Ok(());
    };
    push_argument(out, names, words_at(words, 2), first)?;
    let mut place: usize = 2;
    for arg in rest {
        place += 1;
        out.extend_from_slice(b", ")?;
        push_argument(out, names, words_at(words, place), arg)?;
    }
    Ok(())
}

/// Appends a call up to its arguments.
fn push_callee(
    out: &mut Vec<u8>,
    ret: &IrType,
    callee: &[u8],
    words: &[Text],
) -> Result<(), AllocError>
    ensures { OnOk result (out.new.items ≡ out.old.items ++ (before_space (words_at words.now 0) ++ (codes "call "
        ++ (before_space (words_at words.now 1)
        ++ (type_text ret.now ++ (codes " @" ++ (name_text callee.now ++ codes "("))))))) }
{
    push_before_space(out, words_at(words, 0))?;
    out.extend_from_slice(b"call ")?;
    push_before_space(out, words_at(words, 1))?;
    push_type(out, ret)?;
    out.extend_from_slice(b" @")?;
    push_text_name(out, callee)?;
    out.push(b'(')?;
    Ok(())
}

/// Appends a call.
#[tactic(auto, unfolding(ir_grammar::specs::Printing::op_text))]
pub fn push_call(
    out: &mut Vec<u8>,
    names: &Names<'_>,
    ret: &IrType,
    callee: &[u8],
    args: &[TypedOperand],
    words: &[Text],
) -> Result<(), AllocError>
    ensures { OnOk result (out.new.items
        ≡ out.old.items ++ op_text (shown names.now) (Call ret.now callee.now args.now) words.now) }
{
    push_callee(out, ret, callee, words)?;
    push_arguments(out, names, words, args)?;
    out.push(b')')?;
    push_behind_space(out, words_at(words, 2 + args.len()))
}
