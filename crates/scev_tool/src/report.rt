//! The report on the loops of a module's functions.

ghost use Rattle.std.specs.Prelude.{◌≡◌, ◌++◌, ℕ, List, IfOk, OnOk};
ghost use Rattle.ir_grammar.specs.Printing.{shown_in};
ghost use Rattle.ir_model.specs.WellMade.{HasIds, ItemHasIds, HaveIds};
ghost use Rattle.ir_printer.specs.Shown.{shown};
ghost use Rattle.ir_model.specs.declared.item.Item.{Item};
ghost use Rattle.scev_tool.specs.Report.{AreLoopsLines, AreItemLines, InPieces, IsReport, function_line};

use crate::loop_lines::push_loops;
use classify::{Definitions, is_thin};
use ir_model::{Function, Item, Module, Text};
use ir_printer::{Names, push_text_name};
use loop_regions::loops;
use std::alloc::{AllocError, Global};

/// Appends the line of a function: its name.
fn push_function_line(out: &mut Vec<u8>, f: &Function) -> Result<(), AllocError>
    ensures { OnOk result (out.new.items ≡ out.old.items ++ function_line f.now) }
{
    out.extend_from_slice(b"; function @")?;
    push_text_name(out, f.name.as_slice())?;
    out.push(b'\n')?;
    Ok(())
}

/// Appends the lines of the loops of a function, which has some where it is of the thin forms.
fn push_loops_of(
    out: &mut Vec<u8>,
    alloc: Global,
    names: &Names<'_>,
    f: &Function,
) -> Result<(), AllocError>
    ensures { OnOk result ((lines : List ℕ) × AreLoopsLines (shown names.now) f.now lines
        × (out.new.items ≡ out.old.items ++ lines)) }
{
    if !is_thin(f) {
        return Ok(());
    }
    let table = loops(alloc, f)?;
    let definitions = Definitions::new(alloc, f)?;
    push_loops(out, names, f, &table, &definitions)
}

/// Appends the lines of a function: its name, and those of its loops.
fn push_function(
    out: &mut Vec<u8>,
    alloc: Global,
    globals: &[Text],
    f: &Function,
) -> Result<(), AllocError>
    requires ids { HasIds f.now }
    ensures { OnOk result ((piece : List ℕ) × AreItemLines globals.now (Item.Define f.now) piece
        × (out.new.items ≡ out.old.items ++ piece)) }
{
    let names = Names::of(alloc, globals, f)?;
    push_function_line(out, f)?;
    push_loops_of(out, alloc, &names, f)
}

/// Appends the lines of an item: those of a function with a body.
fn push_item(
    out: &mut Vec<u8>,
    alloc: Global,
    globals: &[Text],
    item: &Item,
) -> Result<(), AllocError>
    requires ids { ItemHasIds item.now }
    ensures { OnOk result ((piece : List ℕ) × AreItemLines globals.now item.now piece
        × (out.new.items ≡ out.old.items ++ piece)) }
{
    match item {
        Item::Define(function) => push_function(out, alloc, globals, function),
        Item::PassedOn(_) | Item::Global(_) | Item::Declare(_) => Ok(()),
    }
}

/// The report of a module. The ids of its functions stand in their tables.
#[tactic(auto, unfolding(ir_model::specs::WellMade::HaveIds))]
pub fn report_module(alloc: Global, m: &Module) -> Result<Vec<u8>, AllocError>
    requires ids { HaveIds m.now }
    ensures { IfOk result (λ text. IsReport m.now text.items) }
{
    let globals = m.globals.as_slice();
    let mut text = Vec::new(alloc);
    text.extend_from_slice(b"; scev report 1\n")?;
    for item in m.items.as_slice() {
        push_item(&mut text, alloc, globals, item)?;
    }
    Ok(text)
}
