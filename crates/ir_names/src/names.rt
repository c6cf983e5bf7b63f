//! Names in order of their first occurrence.

ghost use Rattle.std.specs.Prelude.{◌≡◌, [], Some, map, slice_get, IfOk};
ghost use Rattle.ir_grammar.specs.Numbering.{same_name};
ghost use Rattle.ir_names.specs.Keys.{name_of_key};
ghost use Rattle.ir_names.specs.Growing.{with_name, IsPrefix};

use crate::key::Key;
use indexmap::IndexSet;
use std::alloc::{AllocError, Global};
use std::marker::Model;

/// Names in order of their first occurrence. A name's id is its position.
#[derive(Drop)]
pub struct Names<'a> {
    names: IndexSet<Key<'a>>,
}

impl<'a> Model for Names<'a> {
    ghost use Rattle.std.specs.Prelude.{List, map};
    ghost use Rattle.ir_text.specs.Written.{Name};
    ghost use Rattle.ir_names.specs.Keys.{name_of_key};

    ghost Value = { List Name };

    ghost view = { λ n. map name_of_key n.names.keys };
}

impl<'a> Names<'a> {
    /// No names.
    pub fn new(alloc: Global) -> Names<'a>
        ensures { result ≡ [] }
    {
        Names {
            names: IndexSet::new(alloc),
        }
    }

    /// The id of a name, which is added at the end where it is new.
    pub fn id(&mut self, name: Key<'a>) -> Result<u64, AllocError>
        ensures names { IfOk result (λ id. self.new ≡ with_name same_name self.old (name_of_key name.entry)) }
        ensures stored { IfOk result (λ id. slice_get self.new id ≡ Some (name_of_key name.entry)) }
    {
        let (at, _) = self.names.insert_full(name)?;
        Ok(at as u64)
    }

    /// The names in their order, as keys.
    pub fn as_slice(&self) -> &[Key<'a>]
        ensures { map name_of_key result.now ≡ self.now }
    {
        self.names.as_slice()
    }
}
