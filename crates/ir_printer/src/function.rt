//! Functions with a body.

ghost use Rattle.std.specs.Prelude.{◌≡◌, ◌++◌, codes, OnOk};
ghost use Rattle.std.specs.List.{flat_map};
ghost use Rattle.ir_grammar.specs.Printing.{joined, block_lines, param_text, function_text, before_space, name_text, type_text, words_at};
ghost use Rattle.ir_model.specs.WellMade.{HasIds};
ghost use Rattle.ir_printer.specs.Shown.{shown};

use crate::instruction::push_instr;
use crate::names::push_text_name;
use crate::shown::{Names, push_label, push_value_name};
use crate::types::push_type;
use crate::words::{push_before_space, push_behind_space, words_at};
use ir_model::{Block, Function, Param, Text};
use std::alloc::{AllocError, Global};

/// Appends a parameter.
fn push_param(out: &mut Vec<u8>, names: &Names<'_>, param: &Param) -> Result<(), AllocError>
    ensures { OnOk result (out.new.items ≡ out.old.items ++ param_text (shown names.now) param.now) }
{
    push_type(out, &param.kind)?;
    push_behind_space(out, param.words.as_slice())?;
    out.push(b' ')?;
    push_value_name(out, names, param.value)
}

/// Appends parameters, with commas between them.
fn push_params(out: &mut Vec<u8>, names: &Names<'_>, params: &[Param]) -> Result<(), AllocError>
    ensures { OnOk result (out.new.items
        ≡ out.old.items ++ joined (param_text (shown names.now)) (codes ", ") params.now) }
{
    let Some((first, rest)) = params.split_first() else {
        return Ok(());
    };
    push_param(out, names, first)?;
    for param in rest {
        out.extend_from_slice(b", ")?;
        push_param(out, names, param)?;
    }
    Ok(())
}

/// Appends a block's lines: its label, and a line for each instruction.
fn push_block(out: &mut Vec<u8>, names: &Names<'_>, block: &Block) -> Result<(), AllocError>
    ensures { OnOk result (out.new.items ≡ out.old.items ++ block_lines (shown names.now) block.now) }
{
    push_label(out, names, block.id)?;
    out.extend_from_slice(b":\n")?;
    for instr in block.instrs.as_slice() {
        push_instr(out, names, instr)?;
    }
    Ok(())
}

/// Appends the lines of blocks between braces.
fn push_blocks(out: &mut Vec<u8>, names: &Names<'_>, blocks: &[Block]) -> Result<(), AllocError>
    ensures { OnOk result (out.new.items ≡ out.old.items
        ++ (codes " {\n" ++ (flat_map (block_lines (shown names.now)) blocks.now ++ codes "}\n"))) }
{
    out.extend_from_slice(b" {\n")?;
    for block in blocks {
        push_block(out, names, block)?;
    }
    out.extend_from_slice(b"}\n")
}

/// Appends a function's line up to its parameters.
fn push_head(out: &mut Vec<u8>, function: &Function) -> Result<(), AllocError>
    ensures { OnOk result (out.new.items ≡ out.old.items ++ (codes "define "
        ++ (before_space (words_at function.now.words 0)
        ++ (type_text function.now.ret ++ (codes " @" ++ (name_text function.now.name ++ codes "(")))))) }
{
    out.extend_from_slice(b"define ")?;
    push_before_space(out, words_at(function.words.as_slice(), 0))?;
    push_type(out, &function.ret)?;
    out.extend_from_slice(b" @")?;
    push_text_name(out, function.name.as_slice())?;
    out.push(b'(')?;
    Ok(())
}

/// Appends a function's lines, with the names of the module's globals.
#[tactic(auto, unfolding(ir_grammar::specs::Printing::function_text))]
pub fn push_function(
    alloc: Global,
    out: &mut Vec<u8>,
    globals: &[Text],
    function: &Function,
) -> Result<(), AllocError>
    requires { HasIds function.now }
    ensures { OnOk result (out.new.items ≡ out.old.items ++ function_text globals.now function.now) }
{
    let names = Names::of(alloc, globals, function)?;
    push_head(out, function)?;
    push_params(out, &names, function.params.as_slice())?;
    out.push(b')')?;
    push_behind_space(out, words_at(function.words.as_slice(), 1))?;
    push_blocks(out, &names, function.blocks.as_slice())
}
