//! Functions with their ids and their tables.

ghost use Rattle.std.specs.Prelude.{◌≡◌, [], Some, map, length, unwrap_or, IfOk};
ghost use Rattle.ir_model.specs.declared.types.IrType.TheVariants.{Void};
ghost use Rattle.ir_grammar.specs.Numbering.{text_of_name};
ghost use Rattle.ir_names.specs.Keys.{name_of_key};
ghost use Rattle.ir_names.specs.Whole.{FunctionNumbered};

use crate::key::Key;
use crate::seen::Seen;
use crate::spoken::Spoken;
use crate::types::types;
use crate::walk::{blocks, params};
use ir_model::{Function, IrType, Text, ValueInfo};
use sqlite_items::Items;
use std::alloc::{AllocError, Global};

/// The function with its ids and its tables.
pub fn function<'a>(
    alloc: Global,
    spoken: &Spoken<'a, '_>,
    seen: &mut Seen<'a>,
    mut function: Function,
) -> Result<Function, AllocError>
    requires next { seen.old.next ≡ 0 }
    requires values { seen.old.values ≡ [] }
    requires labels { seen.old.labels ≡ [] }
    ensures { IfOk result (FunctionNumbered spoken.now seen.old.globals seen.new.globals function) }
{
    params(alloc, spoken, seen, &mut function.params)?;
    blocks(alloc, spoken, seen, &mut function.blocks)?;
    let names = seen.values.as_slice();
    let kinds = types(
        alloc,
        names.len(),
        function.params.as_slice(),
        function.blocks.as_slice(),
    )?;
    function.values = value_table(alloc, names, kinds.as_slice())?;
    function.labels = label_table(alloc, seen.labels.as_slice())?;
    Ok(function)
}

// Each name with its type.
fn value_table(
    alloc: Global,
    names: &[Key<'_>],
    kinds: &[Option<IrType>],
) -> Result<Items<ValueInfo>, AllocError>
    requires { length kinds.now ≡ length names.now }
    ensures names { IfOk result (λ table. map (λ info. info.name) table
        ≡ map (λ key. text_of_name (name_of_key key)) names.now) }
    ensures kinds { IfOk result (λ table. map (λ info. info.kind) table ≡ map (λ kind. unwrap_or kind Void) kinds.now) }
{
    let mut table = Items::new(alloc);
    for (at, key) in names.iter().enumerate() {
        let name = text_of(alloc, *key)?;
        let kind = known_type(alloc, &kinds[at])?;
        table.push(ValueInfo { name, kind })?;
    }
    Ok(table)
}

fn label_table(alloc: Global, names: &[Key<'_>]) -> Result<Items<Option<Text>>, AllocError>
    ensures { IfOk result (λ table. table ≡ map (λ key. text_of_name (name_of_key key)) names.now) }
{
    let mut table = Items::new(alloc);
    for key in names {
        table.push(text_of(alloc, *key)?)?;
    }
    Ok(table)
}

// The text of a name, where it is one.
fn text_of(alloc: Global, key: Key<'_>) -> Result<Option<Text>, AllocError>
    ensures { IfOk result (λ text. text ≡ text_of_name (name_of_key key.entry)) }
{
    match key {
        Key::Text(text) => {
            let text = Items::from_slice(alloc, text)?;
            Ok(Some(text))
        }
        Key::Number(_) => Ok(None),
    }
}

// The type, or `Void` where there is none.
fn known_type(alloc: Global, kind: &Option<IrType>) -> Result<IrType, AllocError>
    ensures { IfOk result (λ copy. copy ≡ unwrap_or kind.now Void) }
{
    match kind {
        Some(kind) => kind.copy(alloc),
        None => Ok(IrType::Void),
    }
}
