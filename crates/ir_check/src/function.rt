//! The rules of a function's shape.

ghost use Rattle.std.specs.Prelude.{◌≡◌, [], Some, None, Err, true, slice_get, OnOk, IfOk};
ghost use Rattle.ir_model.specs.WellMade.{HasIds};
ghost use Rattle.ir_model.specs.declared.rule.Rule.{Rule as AnyRule};
ghost use Rattle.ir_model.specs.declared.rule.Place.{Place as AnyPlace};
ghost use Rattle.ir_rules.specs.Names.{duplicate_names};
ghost use Rattle.ir_rules.specs.Types.{bad_widths};
ghost use Rattle.ir_rules.specs.Rules.{broken, first_of, first_broken};
ghost use Rattle.ir_check.specs.Function.{later_rules, is_later};

use crate::callees::Callees;
use crate::defined::{Names, definitions};
use crate::edges::{entry_target, late_phi};
use crate::entries::bad_entries;
use crate::ill::Ill;
use crate::instrs::first_breaking;
use crate::limits::past_limit;
use crate::undefined::first_undefined;
use crate::widths::{bad_param, is_wide};
use ir_model::{Function, Place, Rule};
use std::alloc::{AllocError, Global};

/// The rules behind those on names, in the order in which they are looked at.
const LATER_RULES: [Rule; 12] = [
    Rule::TypeMismatch,
    Rule::LiteralOutOfRange,
    Rule::BadWidth,
    Rule::EntryHasPredecessor,
    Rule::PhiNotFirst,
    Rule::PhiEntries,
    Rule::VoidValue,
    Rule::DuplicateCase,
    Rule::PointerPredicate,
    Rule::CallMismatch,
    Rule::ReturnType,
    Rule::Limit,
];

/// Looks at the rules of a function's shape. `Ok` comes exactly where none of them is broken, `Broken` with the first
/// one that is and its first place in text order. The rule on uses and definitions isn't among them.
///
/// Time linear in the function, beside the sorting of the edges into a block and of a phi's entries.
pub(crate) fn check_function(alloc: Global, callees: &Callees<'_>, f: &Function) -> Result<(), Ill>
    requires ids { HasIds f.now }
    ensures accepted { OnOk result (first_broken callees.now f.now ≡ None) }
    ensures refused { (rule : AnyRule) (place : AnyPlace) → result ≡ Err (Ill.Broken rule place)
        → first_broken callees.now f.now ≡ Some (rule, place) }
{
    match first_fault(alloc, callees, f)? {
        Some((rule, place)) => Err(Ill::Broken { rule, place }),
        None => Ok(()),
    }
}

/// The first rule that a function breaks, with its first place.
fn first_fault(
    alloc: Global,
    callees: &Callees<'_>,
    f: &Function,
) -> Result<Option<(Rule, Place)>, AllocError>
    requires ids { HasIds f.now }
    ensures { IfOk result (λ found. found ≡ first_broken callees.now f.now) }
{
    let defined = match definitions(alloc, f)? {
        Names::Once(defined) => defined,
        Names::Again(place) => return Ok(Some((Rule::DuplicateName, place))),
    };
    match first_undefined(&defined, callees.globals(), f) {
        Some(place) => Ok(Some((Rule::UndefinedName, place))),
        None => later_fault(alloc, callees, f),
    }
}

/// The first of the later rules that a function breaks, with its first place.
fn later_fault(
    alloc: Global,
    callees: &Callees<'_>,
    f: &Function,
) -> Result<Option<(Rule, Place)>, AllocError>
    requires ids { HasIds f.now }
    ensures { IfOk result (λ found. found ≡ first_of (broken callees.now f.now) later_rules) }
{
    for rule in LATER_RULES {
        match first_place(alloc, rule, callees, f)? {
            Some(place) => return Ok(Some((rule, place))),
            None => {}
        }
    }
    Ok(None)
}

/// The first place at which a function breaks a rule, one of the later ones.
fn first_place(
    alloc: Global,
    rule: Rule,
    callees: &Callees<'_>,
    f: &Function,
) -> Result<Option<Place>, AllocError>
    requires ids { HasIds f.now }
    requires later { is_later rule ≡ true }
    ensures { IfOk result (λ found. found ≡ slice_get (broken callees.now f.now rule) 0) }
{
    match rule {
        Rule::BadWidth => bad_width(alloc, callees, f),
        Rule::EntryHasPredecessor => Ok(entry_target(f)),
        Rule::PhiNotFirst => Ok(late_phi(f)),
        Rule::PhiEntries => bad_entries(alloc, f),
        Rule::Limit => Ok(past_limit(f)),
        _ => first_breaking(alloc, rule, callees, f),
    }
}

/// The first width that its place doesn't allow: that of the return type, of a parameter, or of an instruction.
fn bad_width(
    alloc: Global,
    callees: &Callees<'_>,
    f: &Function,
) -> Result<Option<Place>, AllocError>
    ensures { IfOk result (λ found. found ≡ slice_get (bad_widths f.now) 0) }
{
    if !is_wide(&f.ret) {
        return Ok(Some(Place::BlockAt(f.entry())));
    }
    match bad_param(f.params.as_slice()) {
        Some(place) => Ok(Some(place)),
        None => first_breaking(alloc, Rule::BadWidth, callees, f),
    }
}
