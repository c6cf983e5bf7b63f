//! The line about a module that isn't well formed.

ghost use Rattle.std.specs.Prelude.{◌≡◌, ◌++◌, Some, codes, decimal, slice_get, IfOk, OnOk};
ghost use Rattle.std.specs.Option.{option_copied};
ghost use Rattle.ir_model.specs.WellMade.{HasIds, HaveIds};
ghost use Rattle.ir_printer.specs.Shown.{shown};
ghost use Rattle.ir_rules.specs.Accepted.{functions_of};
ghost use Rattle.ir_accept.specs.Line.{rule_name, place_text, within_text, where_text, fault_text};

use crate::fault::{Fault, body_of};
use ir_model::{Function, Module, Place, Rule, Text};
use ir_printer::{Names, push_block_name, push_text_name, push_value_name};
use itoa::Buffer;
use std::alloc::{AllocError, Global};

/// The line about a rule that a module breaks, with its line feed: `scev: rule CallMismatch in @f: %v`. Values and
/// blocks are named as they are printed. The error comes only where there is no memory.
pub fn fault_line(alloc: Global, m: &Module, fault: Fault) -> Result<Vec<u8>, AllocError>
    requires ids { HaveIds m.now }
    ensures { IfOk result (λ line. line.items ≡ fault_text m.now fault.rule fault.function.0 fault.place) }
{
    let mut line = Vec::new(alloc);
    line.extend_from_slice(b"scev: rule ")?;
    line.extend_from_slice(rule_name(fault.rule))?;
    line.extend_from_slice(b" in ")?;
    push_where(&mut line, alloc, m, fault)?;
    line.push(b'\n')?;
    Ok(line)
}

/// Appends the item at which a rule is broken, or the function and the place in it.
fn push_where(out: &mut Vec<u8>, alloc: Global, m: &Module, fault: Fault) -> Result<(), AllocError>
    requires ids { HaveIds m.now }
    ensures { OnOk result (out.new.items
        ≡ out.old.items ++ where_text m.now fault.function.0 fault.place) }
{
    match fault.place {
        Place::Item(n) => push_item(out, n),
        _ => push_inside(out, alloc, m, fault),
    }
}

/// Appends the function in which a rule is broken, and the place in it.
fn push_inside(out: &mut Vec<u8>, alloc: Global, m: &Module, fault: Fault) -> Result<(), AllocError>
    requires ids { HaveIds m.now }
    ensures { OnOk result (out.new.items ≡ out.old.items
        ++ within_text m.now.globals (slice_get (functions_of m.now) fault.function.0) fault.place) }
{
    match function_at(m, fault.function.0) {
        Some(f) => push_within(out, alloc, m.globals.as_slice(), f, fault.place),
        None => Ok(()),
    }
}

/// Appends `item` and its number.
fn push_item(out: &mut Vec<u8>, n: u64) -> Result<(), AllocError>
    ensures { OnOk result (out.new.items ≡ out.old.items ++ (codes "item " ++ decimal n)) }
{
    let mut buffer = Buffer::new();
    out.extend_from_slice(b"item ")?;
    out.extend_from_slice(buffer.format(n).as_bytes())
}

/// Appends the name of a function and a place in it.
fn push_within(
    out: &mut Vec<u8>,
    alloc: Global,
    globals: &[Text],
    f: &Function,
    place: Place,
) -> Result<(), AllocError>
    requires ids { HasIds f.now }
    ensures { OnOk result (out.new.items ≡ out.old.items ++ within_text globals.now (Some f.now) place) }
{
    let names = Names::of(alloc, globals, f)?;
    out.push(b'@')?;
    push_text_name(out, f.name.as_slice())?;
    out.extend_from_slice(b": ")?;
    push_place(out, &names, place)
}

/// Appends a place in a function.
fn push_place(out: &mut Vec<u8>, names: &Names<'_>, place: Place) -> Result<(), AllocError>
    ensures { OnOk result (out.new.items ≡ out.old.items ++ place_text (shown names.now) place) }
{
    match place {
        Place::Value(v) => push_value_name(out, names, v),
        Place::BlockAt(b) => push_block_name(out, names, b),
        Place::UseIn(v, b) => {
            push_value_name(out, names, v)?;
            out.extend_from_slice(b" in ")?;
            push_block_name(out, names, b)
        }
        Place::Item(n) => push_item(out, n),
    }
}

/// The function with a body of this number, from 0.
fn function_at(m: &Module, number: u64) -> Option<&Function>
    ensures { option_copied result ≡ slice_get (functions_of m.now) number }
{
    let mut left = number;
    for item in m.items.as_slice() {
        match body_of(item) {
            Some(f) => {
                if left == 0 {
                    return Some(f);
                }
                left -= 1;
            }
            None => {}
        }
    }
    None
}

/// The name of a rule.
fn rule_name(rule: Rule) -> &'static [u8]
    ensures { result.now ≡ rule_name rule }
{
    match rule {
        Rule::DuplicateName => b"DuplicateName",
        Rule::UndefinedName => b"UndefinedName",
        Rule::TypeMismatch => b"TypeMismatch",
        Rule::LiteralOutOfRange => b"LiteralOutOfRange",
        Rule::BadWidth => b"BadWidth",
        Rule::EntryHasPredecessor => b"EntryHasPredecessor",
        Rule::PhiNotFirst => b"PhiNotFirst",
        Rule::PhiEntries => b"PhiEntries",
        Rule::VoidValue => b"VoidValue",
        Rule::DuplicateCase => b"DuplicateCase",
        Rule::PointerPredicate => b"PointerPredicate",
        Rule::CallMismatch => b"CallMismatch",
        Rule::ReturnType => b"ReturnType",
        Rule::Limit => b"Limit",
        Rule::UseBeforeDef => b"UseBeforeDef",
    }
}
