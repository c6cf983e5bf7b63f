//! Items with their ids, and the module of them.

ghost use Rattle.std.specs.Prelude.{◌≡◌, [], ◌∷◌, map, IfOk};
ghost use Rattle.std.specs.List.{flat_map};
ghost use Rattle.ir_grammar.specs.Numbering.{defined_by, IsNumberedModule};
ghost use Rattle.ir_parts.specs.Places.{draft_of};
ghost use Rattle.ir_names.specs.Meant.{AreMeanings};
ghost use Rattle.ir_names.specs.Whole.{ItemNumbered, ItemsNumbered};

use crate::function::function;
use crate::globals::Globals;
use crate::lists::taken_reversed;
use crate::meanings::Meanings;
use crate::names::Names;
use crate::seen::Seen;
use crate::spoken::Spoken;
use ir_lex::Tokens;
use ir_model::{Item, Module, Text};
use sqlite_items::Items;
use std::alloc::{AllocError, Global};

/// The module of these items, in which each id is still the position of a token.
pub fn numbered(
    alloc: Global,
    tokens: &Tokens<'_>,
    mut items: Items<Item>,
) -> Result<Module, AllocError>
    ensures { IfOk result (λ m. IsNumberedModule (map (draft_of tokens.now) items) m) }
{
    let meanings = Meanings::of(alloc, tokens)?;
    let defined = defined_names(alloc, items.as_slice())?;
    let globals = global_names(alloc, tokens, &meanings, defined.as_slice(), &mut items)?;
    Ok(Module { items, globals })
}

// Gives the items their ids. The names of the module's globals, by those that items have.
fn global_names<'a>(
    alloc: Global,
    tokens: &'a Tokens<'_>,
    meanings: &'a Meanings,
    defined: &'a [Text],
    items: &mut Items<Item>,
) -> Result<Items<Text>, AllocError>
    requires { AreMeanings meanings.now tokens.now }
    ensures { IfOk result (λ names. ItemsNumbered tokens.now defined.now names items.old items.new) }
{
    let spoken = Spoken::new(tokens, meanings);
    let globals = Globals::new(alloc, defined)?;
    let globals = all_items(alloc, &spoken, globals, items)?;
    globals.names(alloc)
}

// Gives the items their ids, and adds the names of globals that they mention.
fn all_items<'a>(
    alloc: Global,
    spoken: &Spoken<'a, '_>,
    mut globals: Globals<'a>,
    items: &mut Items<Item>,
) -> Result<Globals<'a>, AllocError>
    ensures { IfOk result (λ after. ItemsNumbered spoken.now globals.entry after items.old items.new) }
{
    let mut rest = taken_reversed(alloc, items)?;
    while let Some(next) = rest.pop() {
        let (after, numbered) = item(alloc, spoken, globals, next)?;
        globals = after;
        items.push(numbered)?;
    }
    Ok(globals)
}

fn item<'a>(
    alloc: Global,
    spoken: &Spoken<'a, '_>,
    globals: Globals<'a>,
    item: Item,
) -> Result<(Globals<'a>, Item), AllocError>
    ensures { IfOk result (λ r. ItemNumbered spoken.now globals.entry r.0 item r.1) }
{
    match item {
        Item::Define(body) => {
            let mut seen = Seen {
                next: 0,
                values: Names::new(alloc),
                labels: Names::new(alloc),
                globals,
            };
            let body = function(alloc, spoken, &mut seen, body)?;
            let Seen { globals, .. } = seen;
            Ok((globals, Item::Define(body)))
        }
        other => Ok((globals, other)),
    }
}

// The names of the global items, in order.
fn defined_names(alloc: Global, items: &[Item]) -> Result<Items<Text>, AllocError>
    ensures { IfOk result (λ names. names ≡ flat_map defined_by items.now) }
{
    let mut names = Items::new(alloc);
    for item in items {
        if let Item::Global(global) = item {
            names.push(Items::from_slice(alloc, global.name.as_slice())?)?;
        }
    }
    Ok(names)
}
