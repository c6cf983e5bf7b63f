//! What was seen of the names of a module.

ghost use Rattle.std.specs.Prelude.{◌≡◌, IfOk, [], ◌∷◌, unwrap_or};
ghost use Rattle.std.specs.Option.{option_map};
ghost use Rattle.ir_grammar.specs.Numbering.{or_next, next_after};
ghost use Rattle.ir_text.specs.Written.{Text};
ghost use Rattle.ir_model.specs.Sites.{DefinesValue, UsesValue, DefinesBlock, UsesBlock, UsesGlobal};
ghost use Rattle.ir_names.specs.Keys.{name_of_key};
ghost use Rattle.ir_names.specs.Renumbered.{Becomes};

use crate::globals::Globals;
use crate::key::Key;
use crate::names::Names;
use crate::spoken::Spoken;
use scev_base::{BlockId, ValueId};
use std::alloc::{AllocError, Global};

/// The names that were seen of a function's values, of its blocks and of the module's globals, and the number of
/// the next value or block of the function that has no name.
#[derive(Drop)]
pub struct Seen<'a> {
    pub next: u128,
    pub values: Names<'a>,
    pub labels: Names<'a>,
    pub globals: Globals<'a>,
}

impl<'a> Seen<'a> {
    /// The id of a value where it is defined.
    pub fn defines_value(
        &mut self,
        spoken: &Spoken<'a, '_>,
        place: ValueId,
    ) -> Result<ValueId, AllocError>
        ensures { IfOk result (λ id. Becomes spoken.now self.old self.new (DefinesValue place.0 ∷ [])
            (DefinesValue id.0 ∷ [])) }
    {
        let name = name_or_next(&mut self.next, spoken.local(place.0)?)?;
        Ok(ValueId(self.values.id(name)?))
    }

    /// The id of a value where it is used.
    pub fn uses_value(
        &mut self,
        spoken: &Spoken<'a, '_>,
        place: ValueId,
    ) -> Result<ValueId, AllocError>
        ensures { IfOk result (λ id. Becomes spoken.now self.old self.new (UsesValue place.0 ∷ [])
            (UsesValue id.0 ∷ [])) }
    {
        let name = or_empty(spoken.local(place.0)?);
        Ok(ValueId(self.values.id(name)?))
    }

    /// The id of a block where it is defined.
    pub fn defines_block(
        &mut self,
        spoken: &Spoken<'a, '_>,
        place: BlockId,
    ) -> Result<BlockId, AllocError>
        ensures { IfOk result (λ id. Becomes spoken.now self.old self.new (DefinesBlock place.0 ∷ [])
            (DefinesBlock id.0 ∷ [])) }
    {
        let name = name_or_next(&mut self.next, spoken.label(place.0)?)?;
        Ok(BlockId(self.labels.id(name)?))
    }

    /// The id of a block where it is used.
    pub fn uses_block(
        &mut self,
        spoken: &Spoken<'a, '_>,
        place: BlockId,
    ) -> Result<BlockId, AllocError>
        ensures { IfOk result (λ id. Becomes spoken.now self.old self.new (UsesBlock place.0 ∷ [])
            (UsesBlock id.0 ∷ [])) }
    {
        let name = or_empty(spoken.local(place.0)?);
        Ok(BlockId(self.labels.id(name)?))
    }

    /// The id of a global where it is used.
    pub fn uses_global(&mut self, spoken: &Spoken<'a, '_>, place: u64) -> Result<u64, AllocError>
        ensures { IfOk result (λ id. Becomes spoken.now self.old self.new (UsesGlobal place ∷ [])
            (UsesGlobal id ∷ [])) }
    {
        let name = match spoken.global(place) {
            Some(name) => name,
            None => b"".as_slice(),
        };
        self.globals.id(name)
    }
}

// The name that is written, else the next number, which counts as used from then on.
fn name_or_next<'a>(next: &mut u128, written: Option<Key<'a>>) -> Result<Key<'a>, AllocError>
    ensures name { IfOk result (λ key. name_of_key key ≡ or_next (option_map name_of_key written.entry) next.old) }
    ensures next { IfOk result (λ key. next.new ≡ next_after next.old (name_of_key key)) }
{
    let key = match written {
        Some(key) => key,
        None => Key::Number(*next),
    };
    if let Key::Number(number) = key {
        let Some(above) = number.checked_add(1) else {
            return Err(AllocError);
        };
        if *next < above {
            *next = above;
        }
    }
    Ok(key)
}

// The name, or the empty text where there is none.
fn or_empty<'a>(name: Option<Key<'a>>) -> Key<'a>
    ensures { name_of_key result ≡ unwrap_or (option_map name_of_key name.entry) (Text []) }
{
    match name {
        Some(key) => key,
        None => Key::Text(b""),
    }
}
