//! Lists within instructions, with their ids.

ghost use Rattle.std.specs.Prelude.{◌≡◌, [], reverse, map, IfOk, OnOk};
ghost use Rattle.std.specs.List.{flat_map};
ghost use Rattle.ir_model.specs.Sites.{typed_sites, entry_sites};
ghost use Rattle.ir_text.specs.Sites.{bare_typed, bare_entry, bare_case};
ghost use Rattle.ir_names.specs.Parts.{case_sites};
ghost use Rattle.ir_names.specs.Renumbered.{Renumbers};

use crate::operands::{case, entry, typed};
use crate::seen::Seen;
use crate::spoken::Spoken;
use ir_model::{Case, PhiEntry, TypedOperand};
use sqlite_items::Items;
use std::alloc::{AllocError, Global};

/// Takes all items out, in reverse order, so that `pop` takes the first one.
pub fn taken_reversed<T: Drop>(alloc: Global, items: &mut Items<T>) -> Result<Items<T>, AllocError>
    ensures reversed { IfOk result (λ taken. taken ≡ reverse items.old) }
    ensures empty { OnOk result (items.new ≡ []) }
{
    let mut taken = Items::new(alloc);
    while let Some(item) = items.pop() {
        taken.push(item)?;
    }
    Ok(taken)
}

/// Gives the entries of a phi their ids.
pub fn entries<'a>(
    alloc: Global,
    spoken: &Spoken<'a, '_>,
    seen: &mut Seen<'a>,
    entries: &mut Items<PhiEntry>,
) -> Result<(), AllocError>
    ensures { OnOk result (Renumbers (flat_map entry_sites) (map bare_entry)
        spoken.now seen.old seen.new entries.old entries.new) }
{
    let mut rest = taken_reversed(alloc, entries)?;
    while let Some(next) = rest.pop() {
        entries.push(entry(spoken, seen, next)?)?;
    }
    Ok(())
}

/// Gives operands that have types their ids, as the arguments of a call.
pub fn operands<'a>(
    alloc: Global,
    spoken: &Spoken<'a, '_>,
    seen: &mut Seen<'a>,
    operands: &mut Items<TypedOperand>,
) -> Result<(), AllocError>
    ensures { OnOk result (Renumbers (flat_map typed_sites) (map bare_typed)
        spoken.now seen.old seen.new operands.old operands.new) }
{
    let mut rest = taken_reversed(alloc, operands)?;
    while let Some(next) = rest.pop() {
        operands.push(typed(spoken, seen, next)?)?;
    }
    Ok(())
}

/// Gives the cases of a switch their ids.
pub fn cases<'a>(
    alloc: Global,
    spoken: &Spoken<'a, '_>,
    seen: &mut Seen<'a>,
    cases: &mut Items<Case>,
) -> Result<(), AllocError>
    ensures { OnOk result (Renumbers (flat_map case_sites) (map bare_case)
        spoken.now seen.old seen.new cases.old cases.new) }
{
    let mut rest = taken_reversed(alloc, cases)?;
    while let Some(next) = rest.pop() {
        cases.push(case(spoken, seen, next)?)?;
    }
    Ok(())
}
