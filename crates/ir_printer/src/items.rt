//! Items of a module.

ghost use Rattle.std.specs.Prelude.{◌≡◌, ◌∷◌, ◌++◌, codes, if◌then◌else◌, OnOk};
ghost use Rattle.std.specs.List.{flat_map};
ghost use Rattle.ir_grammar.specs.Printing.{before_space, behind_space, name_text, type_text, global_text, joined, declared_text, declare_text, item_text};
ghost use Rattle.ir_model.specs.WellMade.{ItemHasIds};

use crate::function::push_function;
use crate::initialiser::push_initialiser;
use crate::names::push_text_name;
use crate::types::push_type;
use crate::words::{push_before_space, push_behind_space};
use ir_model::{Declare, DeclaredParam, Global_, Item, Text};
use std::alloc::{AllocError, Global};

/// Appends runs of passed-on words, a comma before each.
fn push_runs(out: &mut Vec<u8>, runs: &[Text]) -> Result<(), AllocError>
    ensures { OnOk result (out.new.items ≡ out.old.items ++ flat_map (λ words. 44 ∷ behind_space words) runs.now) }
{
    for words in runs {
        out.push(b',')?;
        push_behind_space(out, words.as_slice())?;
    }
    Ok(())
}

/// Appends a global's line up to its type.
fn push_global_front(out: &mut Vec<u8>, global: &Global_) -> Result<(), AllocError>
    ensures { OnOk result (out.new.items ≡ out.old.items ++ (64 ∷ (name_text global.now.name ++ (codes " = "
        ++ (before_space global.now.before
        ++ (if global.now.constant then codes "constant " else codes "global ")))))) }
{
    out.push(b'@')?;
    push_text_name(out, global.name.as_slice())?;
    out.extend_from_slice(b" = ")?;
    push_before_space(out, global.before.as_slice())?;
    if global.constant {
        out.extend_from_slice(b"constant ")
    } else {
        out.extend_from_slice(b"global ")
    }
}

/// Appends a global's line.
fn push_global(out: &mut Vec<u8>, global: &Global_) -> Result<(), AllocError>
    ensures { OnOk result (out.new.items ≡ out.old.items ++ global_text global.now) }
{
    push_global_front(out, global)?;
    push_type(out, &global.kind)?;
    push_initialiser(out, &global.kind, &global.init)?;
    push_runs(out, global.after.as_slice())?;
    out.push(b'\n')?;
    Ok(())
}

/// Appends a parameter of a function without a body.
fn push_declared(out: &mut Vec<u8>, param: &DeclaredParam) -> Result<(), AllocError>
    ensures { OnOk result (out.new.items ≡ out.old.items ++ declared_text param.now) }
{
    push_type(out, &param.kind)?;
    push_behind_space(out, param.words.as_slice())
}

/// Appends parameters of a function without a body, with commas between them.
fn push_all_declared(out: &mut Vec<u8>, params: &[DeclaredParam]) -> Result<(), AllocError>
    ensures { OnOk result (out.new.items ≡ out.old.items ++ joined declared_text (codes ", ") params.now) }
{
    let Some((first, rest)) = params.split_first() else {
        return Ok(());
    };
    push_declared(out, first)?;
    for param in rest {
        out.extend_from_slice(b", ")?;
        push_declared(out, param)?;
    }
    Ok(())
}

/// Appends the line of a function without a body up to its parameters.
fn push_declare_front(out: &mut Vec<u8>, declare: &Declare) -> Result<(), AllocError>
    ensures { OnOk result (out.new.items ≡ out.old.items ++ (codes "declare " ++ (before_space declare.now.before
        ++ (type_text declare.now.ret ++ (codes " @" ++ (name_text declare.now.name ++ codes "(")))))) }
{
    out.extend_from_slice(b"declare ")?;
    push_before_space(out, declare.before.as_slice())?;
    push_type(out, &declare.ret)?;
    out.extend_from_slice(b" @")?;
    push_text_name(out, declare.name.as_slice())?;
    out.push(b'(')?;
    Ok(())
}

/// Appends the line of a function without a body.
fn push_declare(out: &mut Vec<u8>, declare: &Declare) -> Result<(), AllocError>
    ensures { OnOk result (out.new.items ≡ out.old.items ++ declare_text declare.now) }
{
    push_declare_front(out, declare)?;
    push_all_declared(out, declare.params.as_slice())?;
    out.push(b')')?;
    push_behind_space(out, declare.after.as_slice())?;
    out.push(b'\n')?;
    Ok(())
}

/// Appends an item's lines, with the names of the module's globals.
pub fn push_item(
    alloc: Global,
    out: &mut Vec<u8>,
    globals: &[Text],
    item: &Item,
) -> Result<(), AllocError>
    requires { ItemHasIds item.now }
    ensures { OnOk result (out.new.items ≡ out.old.items ++ item_text globals.now item.now) }
{
    match item {
        Item::PassedOn(text) => {
            out.extend_from_slice(text.as_slice())?;
            out.push(b'\n')?;
            Ok(())
        }
        Item::Global(global) => push_global(out, global),
        Item::Declare(declare) => push_declare(out, declare),
        Item::Define(function) => push_function(alloc, out, globals, function),
    }
}
