//! The signatures of a module.

ghost use Rattle.std.specs.Prelude.{◌≡◌, IfOk, map, flat_map, count_by};
ghost use Rattle.ir_model.specs.declared.function.Param.{Param};
ghost use Rattle.ir_model.specs.declared.item.DeclaredParam.{DeclaredParam};
ghost use Rattle.ir_model.specs.declared.signature.Signature.{Signature};
ghost use Rattle.ir_model.specs.Places.{signature_of, is_global, signatures_of};

use crate::function::{Function, Param};
use crate::item::{Declare, DeclaredParam, Item, Module};
use crate::signature::{Signature, Signatures};
use crate::types::IrType;
use sqlite_items::Items;
use std::alloc::{AllocError, Global};

impl Module {
    /// What the rules of a function see of its module: the number of its global items, and the name and the types of
    /// each function that it declares or defines, in item order.
    ///
    /// Time linear in the items and in the length of names and parameter lists.
    pub fn signatures(&self, alloc: Global) -> Result<Signatures, AllocError>
        ensures { IfOk result (λ signatures. signatures ≡ signatures_of self.now) }
    {
        let items = self.items.as_slice();
        let functions = function_signatures(alloc, items)?;
        Ok(Signatures {
            globals: global_items(items),
            functions,
        })
    }
}

/// The number of global items.
fn global_items(items: &[Item]) -> u64
    ensures { result ≡ count_by is_global items.now }
{
    let mut count = 0;
    for item in items {
        if let Item::Global(_) = item {
            count += 1;
        }
    }
    count
}

/// The signatures of the functions among some items, in their order.
fn function_signatures(alloc: Global, items: &[Item]) -> Result<Items<Signature>, AllocError>
    ensures { IfOk result (λ signatures. signatures ≡ flat_map signature_of items.now) }
{
    let mut signatures = Items::new(alloc);
    for item in items {
        match item {
            Item::Declare(declare) => signatures.push(declared_signature(alloc, declare)?)?,
            Item::Define(function) => signatures.push(defined_signature(alloc, function)?)?,
            Item::PassedOn(_) | Item::Global(_) => {}
        }
    }
    Ok(signatures)
}

/// The signature of a function without a body.
fn declared_signature(alloc: Global, declare: &Declare) -> Result<Signature, AllocError>
    ensures { IfOk result (λ signature. signature ≡ record {
      name = declare.now.name;
      ret = declare.now.ret;
      params = map (λ (p : DeclaredParam). p.kind) declare.now.params;
    }) }
{
    Ok(Signature {
        name: Items::from_slice(alloc, declare.name.as_slice())?,
        ret: declare.ret.copy(alloc)?,
        params: declared_kinds(alloc, declare.params.as_slice())?,
    })
}

/// The signature of a function with a body.
fn defined_signature(alloc: Global, function: &Function) -> Result<Signature, AllocError>
    ensures { IfOk result (λ signature. signature ≡ record {
      name = function.now.name;
      ret = function.now.ret;
      params = map (λ (p : Param). p.kind) function.now.params;
    }) }
{
    Ok(Signature {
        name: Items::from_slice(alloc, function.name.as_slice())?,
        ret: function.ret.copy(alloc)?,
        params: kinds(alloc, function.params.as_slice())?,
    })
}

/// The types of parameters.
fn kinds(alloc: Global, params: &[Param]) -> Result<Items<IrType>, AllocError>
    ensures { IfOk result (λ kinds. kinds ≡ map (λ (p : Param). p.kind) params.now) }
{
    let mut kinds = Items::new(alloc);
    for param in params {
        kinds.push(param.kind.copy(alloc)?)?;
    }
    Ok(kinds)
}

/// The types of the parameters of a function without a body.
fn declared_kinds(alloc: Global, params: &[DeclaredParam]) -> Result<Items<IrType>, AllocError>
    ensures { IfOk result (λ kinds. kinds ≡ map (λ (p : DeclaredParam). p.kind) params.now) }
{
    let mut kinds = Items::new(alloc);
    for param in params {
        kinds.push(param.kind.copy(alloc)?)?;
    }
    Ok(kinds)
}
