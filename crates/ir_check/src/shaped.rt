//! A function of the right shape.

ghost use Rattle.std.specs.Prelude.{◌≡◌, Some, None, Err, IfOk, OnOk};
ghost use Rattle.ir_model.specs.WellMade.{IsWellMade};
ghost use Rattle.ir_model.specs.declared.rule.Rule.{Rule as AnyRule};
ghost use Rattle.ir_model.specs.declared.rule.Place.{Place as AnyPlace};
ghost use Rattle.ir_rules.specs.Rules.{first_broken};

use crate::callees::Callees;
use crate::function::check_function;
use crate::ill::Ill;
use ir_model::{Function, Signatures};
use std::alloc::Global;
use std::marker::Model;

/// A well-made function that breaks no rule of shape, with the signatures of its module.
#[derive(Drop)]
pub struct Shaped<'m> {
    function: &'m Function,
    signatures: &'m Signatures,
}

impl<'m> Model for Shaped<'m> {
    ghost use Rattle.ir_check.specs.Shaped.{ShapedParts, IsShaped};

    ghost Value = { ShapedParts };

    ghost view = { λ s. record { function = s.function.now; signatures = s.signatures.now } };

    ghost invariant = { λ s. IsShaped s.signatures.now s.function.now };
}

impl<'m> Shaped<'m> {
    /// The function.
    pub fn function(&self) -> &'m Function
        ensures value { result.now ≡ self.now.function }
        ensures well_made { IsWellMade result.now }
        ensures shape { first_broken self.now.signatures result.now ≡ None }
    {
        self.function
    }

    /// What the rules of the function see of its module.
    pub fn signatures(&self) -> &'m Signatures
        ensures { result.now ≡ self.now.signatures }
    {
        self.signatures
    }
}

/// Looks at the rules of a function's shape. `Ok` comes exactly where none of them is broken, `Broken` with the first
/// one that is and its first place in text order. The rule on uses and definitions isn't among them.
///
/// Time linear in the function, beside the sorting of the edges into a block and of a phi's entries.
pub fn check_shape<'m>(
    alloc: Global,
    callees: &Callees<'m>,
    f: &'m Function,
) -> Result<Shaped<'m>, Ill>
    requires well_made { IsWellMade f.now }
    ensures accepted { OnOk result (first_broken callees.now f.now ≡ None) }
    ensures holds { IfOk result (λ shaped. shaped ≡ record { function = f.now; signatures = callees.now }) }
    ensures refused { (rule : AnyRule) (place : AnyPlace) → result ≡ Err (Ill.Broken rule place)
        → first_broken callees.now f.now ≡ Some (rule, place) }
{
    check_function(alloc, callees, f)?;
    Ok(Shaped {
        function: f,
        signatures: callees.signatures(),
    })
}
