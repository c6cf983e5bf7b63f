//! The names of a module's globals.

ghost use Rattle.std.specs.Prelude.{◌≡◌, ℕ, List, [], ◌∷◌, ◌++◌, length, map, Some, IfOk, OnOk};
ghost use Rattle.std.specs.Str.{bytes_eq};
ghost use Rattle.ir_grammar.specs.Numbering.{IsFirstPlace};
ghost use Rattle.ir_names.specs.Growing.{with_name};
ghost use Rattle.ir_names.specs.Firsts.{AreFirstPlaces};

use indexmap::{IndexMap, IndexSet};
use ir_model::Text;
use sqlite_items::Items;
use std::alloc::{AllocError, Global};
use std::marker::Model;

/// The names of a module's globals: those of its items, in order, and then each other one by first occurrence.
#[derive(Drop)]
pub struct Globals<'a> {
    defined: &'a [Text],
    places: IndexMap<&'a [u8], u64>,
    others: IndexSet<&'a [u8]>,
}

impl<'a> Model for Globals<'a> {
    ghost use Rattle.std.specs.Prelude.{List, ℕ, map, ◌++◌};
    ghost use Rattle.ir_names.specs.Firsts.{AreFirstPlaces};

    ghost Value = { List (List ℕ) };

    ghost view = { λ g. g.defined.now ++ map (λ name. name.now) g.others.keys };

    ghost invariant = { λ g. AreFirstPlaces g.places g.defined.now };
}

impl<'a> Globals<'a> {
    /// The id of a global, whose name is added at the end where it is new.
    pub fn id(&mut self, name: &'a [u8]) -> Result<u64, AllocError>
        ensures names { IfOk result (λ id. self.new ≡ with_name bytes_eq self.old name.now) }
        ensures first { IfOk result (λ id. IsFirstPlace self.new name.now id) }
    {
        if let Some(place) = self.places.get(name) {
            return Ok(*place);
        }
        let (at, _) = self.others.insert_full(name)?;
        let Some(sum) = (self.defined.len() as u64).checked_add(at as u64) else {
            return Err(AllocError);
        };
        Ok(sum)
    }

    /// Globals with these names.
    pub fn new(alloc: Global, defined: &'a [Text]) -> Result<Globals<'a>, AllocError>
        ensures { IfOk result (λ globals. globals ≡ defined.now) }
    {
        let places = first_places(alloc, defined)?;
        Ok(Globals {
            defined,
            places,
            others: IndexSet::new(alloc),
        })
    }

    /// The names in their order, copied.
    pub fn names(&self, alloc: Global) -> Result<Items<Text>, AllocError>
        ensures { IfOk result (λ names. names ≡ self.now) }
    {
        let mut names = copied_texts(alloc, self.defined)?;
        names.append(copied(alloc, self.others.as_slice())?)?;
        Ok(names)
    }
}

fn copied_texts(alloc: Global, names: &[Text]) -> Result<Items<Text>, AllocError>
    ensures { IfOk result (λ copies. copies ≡ names.now) }
{
    let mut copies = Items::new(alloc);
    for name in names {
        copies.push(Items::from_slice(alloc, name.as_slice())?)?;
    }
    Ok(copies)
}

fn copied(alloc: Global, names: &[&[u8]]) -> Result<Items<Text>, AllocError>
    ensures { IfOk result (λ copies. copies ≡ map (λ name. name.now) names.now) }
{
    let mut copies = Items::new(alloc);
    for name in names {
        copies.push(Items::from_slice(alloc, *name)?)?;
    }
    Ok(copies)
}

// The first place of each name.
fn first_places<'a>(alloc: Global, names: &'a [Text]) -> Result<IndexMap<&'a [u8], u64>, AllocError>
    ensures { IfOk result (λ places. AreFirstPlaces places names.now) }
{
    let mut places = IndexMap::new(alloc);
    for (at, name) in names.iter().enumerate() {
        note(&mut places, name.as_slice(), at as u64)?;
    }
    Ok(places)
}

// Notes the place of a name that has none yet.
fn note<'a>(places: &mut IndexMap<&'a [u8], u64>, name: &'a [u8], at: u64) -> Result<(), AllocError>
    ensures { OnOk result ((names : List (List ℕ)) → at ≡ length names → AreFirstPlaces places.old names
        → AreFirstPlaces places.new (names ++ name.now ∷ [])) }
{
    if let Some(_place) = places.get(name) {
        return Ok(());
    }
    places.insert(name, at)?;
    Ok(())
}
