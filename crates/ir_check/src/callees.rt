//! The functions of a module by their names.

ghost use Rattle.std.specs.Prelude.{◌≡◌, ℕ, List, Some, None, if◌then◌else◌, IfOk, OnOk};
ghost use Rattle.std.specs.Option.{option_copied, option_or};
ghost use Rattle.std.specs.Str.{bytes_eq};
ghost use Rattle.ir_rules.specs.Values as values;
ghost use Rattle.ir_check.specs.Firsts.{place_in};

use indexmap::IndexMap;
use ir_model::{Signature, Signatures};
use std::alloc::{AllocError, Global};
use std::marker::Model;

/// The functions that a module declares or defines, by their names. Where two have one name, the first one counts.
#[derive(Drop)]
pub struct Callees<'a> {
    signatures: &'a Signatures,
    places: IndexMap<&'a [u8], usize>,
}

impl<'a> Model for Callees<'a> {
    ghost use Rattle.ir_model.specs.declared.signature.Signatures.{Signatures};
    ghost use Rattle.ir_check.specs.Firsts.{AreFirstPlaces};

    ghost Value = { Signatures };

    ghost view = { λ c. c.signatures.now };

    ghost invariant = { λ c. AreFirstPlaces c.places c.signatures.now.functions };
}

impl<'a> Callees<'a> {
    /// The functions of a module. Time linear in their number.
    pub fn of(alloc: Global, signatures: &'a Signatures) -> Result<Callees<'a>, AllocError>
        ensures { IfOk result (λ callees. callees ≡ signatures.now) }
    {
        let mut places = IndexMap::new(alloc);
        for (at, signature) in signatures.functions.as_slice().iter().enumerate() {
            note(&mut places, signature.name.as_slice(), at)?;
        }
        Ok(Callees { signatures, places })
    }

    /// The function of this name.
    pub(crate) fn function(&self, name: &[u8]) -> Option<&'a Signature>
        ensures { option_copied result ≡ values.function_of self.now name.now }
    {
        let place = self.places.get(name)?;
        self.signatures.functions.get(*place)
    }

    /// What they were made of.
    pub(crate) fn signatures(&self) -> &'a Signatures
        ensures { result.now ≡ self.now }
    {
        self.signatures
    }

    /// How many globals the module has.
    pub(crate) fn globals(&self) -> u64
        ensures { result ≡ self.now.globals }
    {
        self.signatures.globals
    }
}

/// Notes the place of a name that has none yet.
fn note<'a>(
    places: &mut IndexMap<&'a [u8], usize>,
    name: &'a [u8],
    at: usize,
) -> Result<(), AllocError>
    ensures { OnOk result ((q : List ℕ) → place_in places.new q
        ≡ option_or (place_in places.old q) (if bytes_eq name.now q then Some at else None)) }
{
    if places.get(name).is_none() {
        places.insert(name, at)?;
    }
    Ok(())
}
