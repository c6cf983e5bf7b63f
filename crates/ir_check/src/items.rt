//! What stands outside functions.

ghost use Rattle.std.specs.Prelude.{◌≡◌, ◌&&◌, Some, None, Err, slice_get, OnOk, IfOk};
ghost use Rattle.std.specs.List.{list_all};
ghost use Rattle.std.specs.Option.{option_copied};
ghost use Rattle.ir_model.specs.declared.item.DeclaredParam.{DeclaredParam};
ghost use Rattle.ir_model.specs.declared.rule.Rule.{Rule};
ghost use Rattle.ir_model.specs.declared.rule.Place.{Place};
ghost use Rattle.ir_rules.specs.Items as rules;
ghost use Rattle.ir_rules.specs.Rules.{items_broken, first_item_broken};
ghost use Rattle.ir_rules.specs.Types as types;
ghost use Rattle.ir_check.specs.Items.{breaks_item, duplicates};

use crate::ill::Ill;
use crate::initialisers::{init_fits, init_in_range};
use crate::limits::is_within;
use crate::widths::{is_whole, is_wide};
use indexmap::IndexSet;
use ir_model::{Declare, DeclaredParam, Global_, Item, Module, Place, Rule};
use std::alloc::{AllocError, Global};

/// The rules of items, in the order in which they are looked at.
const ITEM_RULES: [Rule; 5] = [
    Rule::DuplicateName,
    Rule::TypeMismatch,
    Rule::LiteralOutOfRange,
    Rule::BadWidth,
    Rule::Limit,
];

/// The most functions with a body.
const FUNCTIONS: usize = 1024;

/// Looks at the rules of what stands outside functions: names, initialisers, widths and limits. `Ok` comes exactly
/// where none of them is broken, `Broken` with the first one that is and the first item in text order that breaks it.
///
/// Time linear in the items.
pub fn check_module(alloc: Global, m: &Module) -> Result<(), Ill>
    ensures accepted { OnOk result (first_item_broken m.now ≡ None) }
    ensures refused { (rule : Rule) (place : Place) → result ≡ Err (Ill.Broken rule place)
        → first_item_broken m.now ≡ Some (rule, place) }
{
    for rule in ITEM_RULES {
        match first_item(alloc, rule, m)? {
            Some(place) => return Err(Ill::Broken { rule, place }),
            None => {}
        }
    }
    Ok(())
}

/// The first item that breaks a rule.
fn first_item(alloc: Global, rule: Rule, m: &Module) -> Result<Option<Place>, AllocError>
    ensures { IfOk result (λ found. found ≡ slice_get (items_broken m.now rule) 0) }
{
    let items = m.items.as_slice();
    match rule {
        Rule::DuplicateName => duplicate_item(alloc, items),
        Rule::Limit => Ok(item_past(items)),
        _ => Ok(breaking_item(rule, items)),
    }
}

/// The first item whose name an item before it has.
fn duplicate_item(alloc: Global, items: &[Item]) -> Result<Option<Place>, AllocError>
    ensures { IfOk result (λ found. found ≡ slice_get (duplicates items.now) 0) }
{
    let mut names: IndexSet<&[u8]> = IndexSet::new(alloc);
    for (at, item) in items.iter().enumerate() {
        match name_of(item) {
            Some(name) => {
                let (_, is_new) = names.insert_full(name)?;
                if !is_new {
                    return Ok(Some(Place::Item(at as u64)));
                }
            }
            None => {}
        }
    }
    Ok(None)
}

/// The name of an item.
fn name_of(item: &Item) -> Option<&[u8]>
    ensures { option_copied result ≡ rules.name_of item.now }
{
    match item {
        Item::PassedOn(_) => None,
        Item::Global(global) => Some(global.name.as_slice()),
        Item::Declare(declare) => Some(declare.name.as_slice()),
        Item::Define(function) => Some(function.name.as_slice()),
    }
}

/// The first item that breaks a rule by itself.
fn breaking_item(rule: Rule, items: &[Item]) -> Option<Place>
    ensures { result ≡ slice_get (rules.items_where (breaks_item rule) 0 items.now) 0 }
{
    for (at, item) in items.iter().enumerate() {
        if is_breaking(rule, item) {
            return Some(Place::Item(at as u64));
        }
    }
    None
}

/// Whether an item breaks a rule by itself.
fn is_breaking(rule: Rule, item: &Item) -> bool
    ensures { result ≡ breaks_item rule item.now }
{
    match rule {
        Rule::TypeMismatch => is_mistyped(item),
        Rule::LiteralOutOfRange => is_out_of_range(item),
        Rule::BadWidth => has_bad_width(item),
        _ => false,
    }
}

/// Whether an initialiser isn't of its global's type.
fn is_mistyped(item: &Item) -> bool
    ensures { result ≡ rules.is_mistyped item.now }
{
    match item {
        Item::Global(
            Global_ {
                kind,
                init: Some(value),
                ..
            },
        ) => !init_fits(kind, value),
        _ => false,
    }
}

/// Whether a numeral of an initialiser is out of range.
fn is_out_of_range(item: &Item) -> bool
    ensures { result ≡ rules.is_out_of_range item.now }
{
    match item {
        Item::Global(
            Global_ {
                kind,
                init: Some(value),
                ..
            },
        ) => !init_in_range(kind, value),
        _ => false,
    }
}

/// Whether a width of a global or of a declaration isn't one that its place allows.
fn has_bad_width(item: &Item) -> bool
    ensures { result ≡ rules.has_bad_width item.now }
{
    match item {
        Item::Global(global) => !is_whole(&global.kind),
        Item::Declare(declare) => !has_wide_types(declare),
        Item::PassedOn(_) | Item::Define(_) => false,
    }
}

/// Whether the types of a declaration have 1 to 64 bits.
fn has_wide_types(declare: &Declare) -> bool
    ensures { result ≡ (types.is_wide declare.now.ret
        && list_all (λ (p : DeclaredParam). types.is_wide p.kind) declare.now.params) }
{
    is_wide(&declare.ret) && are_wide(declare.params.as_slice())
}

/// Whether the types of parameters have 1 to 64 bits.
fn are_wide(params: &[DeclaredParam]) -> bool
    ensures { result ≡ list_all (λ (p : DeclaredParam). types.is_wide p.kind) params.now }
{
    params.iter().all(|param| is_wide(&param.kind))
}

/// The first item that is past a limit.
fn item_past(items: &[Item]) -> Option<Place>
    ensures { result ≡ slice_get (rules.items_past 0 0 items.now) 0 }
{
    let mut functions = 0;
    for (at, item) in items.iter().enumerate() {
        match item {
            Item::Global(global) => {
                if !is_within(&global.kind) {
                    return Some(Place::Item(at as u64));
                }
            }
            Item::Define(_) => {
                if functions >= FUNCTIONS {
                    return Some(Place::Item(at as u64));
                }
                functions += 1;
            }
            Item::PassedOn(_) | Item::Declare(_) => {}
        }
    }
    None
}
