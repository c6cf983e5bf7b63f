//! The first rule of well-formedness that a module breaks.

ghost use Rattle.std.specs.Prelude.{◌≡◌, [], ◌∷◌, Ok, None, IfOk, IfSome, unwrap_or};
ghost use Rattle.std.specs.Option.{option_copied, option_map};
ghost use Rattle.ir_model.specs.WellMade.{IsWellMade, HaveIds, AreWellMade};
ghost use Rattle.ir_rules.specs.Rules.{first_item_broken};
ghost use Rattle.ir_rules.specs.Accepted.{body_of, IsAccepted, IsBrokenAt, IsAcceptedModule, IsFault};

use flow_graph::EntryWalks;
use ir_check::{Callees, Ill, Shaped, check_module, check_shape};
use ir_model::{Function, Item, Module, Place, Rule};
use scev_base::FuncId;
use ssa_check::{SsaFault, check_uses};
use std::alloc::{AllocError, Global};

/// A rule that is broken, the function with a body, by its number from 0 (0 for a rule on what stands outside
/// functions), and the place.
#[derive(Clone, Copy, Debug, PartialEq, Eq)]
pub struct Fault {
    pub rule: Rule,
    pub function: FuncId,
    pub place: Place,
}

/// The first rule that a module breaks: on what stands outside functions, or else in the first function that isn't
/// accepted. None comes exactly where the module breaks none.
///
/// The error comes only where there is no memory. The time is that of `check_module`, and of `check_shape`,
/// `EntryWalks::of` and `check_uses` for each function.
pub fn first_fault(alloc: Global, m: &Module) -> Result<Option<Fault>, AllocError>
    requires ids { HaveIds m.now }
    requires well_made { AreWellMade m.now }
    ensures accepted { result ≡ Ok None → IsAcceptedModule m.now }
    ensures refused { IfOk result (λ found. IfSome found
        (λ fault. IsFault m.now fault.rule fault.function.0 fault.place)) }
{
    match check_module(alloc, m) {
        Ok(()) => first_of_functions(alloc, m),
        Err(Ill::Broken { rule, place }) => Ok(Some(of_items(rule, place))),
        Err(Ill::OutOfMemory) => Err(AllocError),
    }
}

/// A rule that is broken outside functions.
fn of_items(rule: Rule, place: Place) -> Fault
    ensures rule { result.rule ≡ rule }
    ensures number { result.function.0 ≡ 0 }
    ensures place { result.place ≡ place }
{
    Fault {
        rule,
        function: FuncId(0),
        place,
    }
}

/// The first rule that a function of a module breaks, in the first one that isn't accepted.
fn first_of_functions(alloc: Global, m: &Module) -> Result<Option<Fault>, AllocError>
    requires ids { HaveIds m.now }
    requires well_made { AreWellMade m.now }
    requires items { first_item_broken m.now ≡ None }
    ensures accepted { result ≡ Ok None → IsAcceptedModule m.now }
    ensures refused { IfOk result (λ found. IfSome found
        (λ fault. IsFault m.now fault.rule fault.function.0 fault.place)) }
{
    let signatures = m.signatures(alloc)?;
    let callees = Callees::of(alloc, &signatures)?;
    let mut number = 0;
    for item in m.items.as_slice() {
        match body_of(item) {
            Some(f) => match function_fault(alloc, &callees, f)? {
                Some((rule, place)) => {
                    return Ok(Some(Fault {
                        rule,
                        function: FuncId(number),
                        place,
                    }));
                }
                None => number += 1,
            },
            None => {}
        }
    }
    Ok(None)
}

/// The function that an item is, where it has a body.
pub(crate) fn body_of(item: &Item) -> Option<&Function>
    ensures { body_of item.now
        ≡ unwrap_or (option_map (λ f. f ∷ []) (option_copied result)) [] }
{
    match item {
        Item::Define(f) => Some(f),
        Item::PassedOn(_) | Item::Global(_) | Item::Declare(_) => None,
    }
}

/// The first rule that a function breaks: one of its shape, or else the one on uses.
fn function_fault<'m>(
    alloc: Global,
    callees: &Callees<'m>,
    f: &'m Function,
) -> Result<Option<(Rule, Place)>, AllocError>
    requires well_made { IsWellMade f.now }
    ensures accepted { result ≡ Ok None → IsAccepted callees.now f.now }
    ensures refused { IfOk result (λ found. IfSome found (λ fault. IsBrokenAt callees.now f.now fault.0 fault.1)) }
{
    match check_shape(alloc, callees, f) {
        Ok(shaped) => use_fault(alloc, &shaped),
        Err(Ill::Broken { rule, place }) => Ok(Some((rule, place))),
        Err(Ill::OutOfMemory) => Err(AllocError),
    }
}

/// Where a function of the right shape breaks the rule on uses.
fn use_fault(alloc: Global, shaped: &Shaped<'_>) -> Result<Option<(Rule, Place)>, AllocError>
    ensures accepted { result ≡ Ok None → IsAccepted shaped.now.signatures shaped.now.function }
    ensures refused { IfOk result (λ found. IfSome found
        (λ fault. IsBrokenAt shaped.now.signatures shaped.now.function fault.0 fault.1)) }
{
    let f = shaped.function();
    let walks = EntryWalks::of(alloc, f)?;
    match check_uses(alloc, f, &walks) {
        Ok(()) => Ok(None),
        Err(SsaFault::UseBeforeDef { value, block }) => {
            Ok(Some((Rule::UseBeforeDef, Place::UseIn(value, block))))
        }
        Err(SsaFault::OutOfMemory) => Err(AllocError),
    }
}
