//! A function that is lent, or owned.

ghost use Rattle.std.specs.Prelude.{◌≡◌};

use ir_model::Function;
use std::marker::Model;

/// How a function is held.
#[derive(Drop)]
enum Holding<'m> {
    Lent(&'m Function),
    Own(Function),
}

/// A function that is lent, or owned. Contracts see the function.
#[derive(Drop)]
pub(crate) struct Held<'m> {
    holding: Holding<'m>,
}

impl<'m> Model for Held<'m> {
    ghost use Rattle.ir_model.specs.declared.function.Function.{Function};
    ghost use Rattle.ssa_check.specs.CheckedTables.{held};

    ghost Value = { Function };

    ghost view = { λ h. held h.holding };
}

impl<'m> Held<'m> {
    /// A function that is lent.
    pub(crate) fn lent(function: &'m Function) -> Held<'m>
        ensures { result ≡ function.now }
    {
        Held {
            holding: Holding::Lent(function),
        }
    }

    /// A function that is owned.
    pub(crate) fn own(function: Function) -> Held<'m>
        ensures { result ≡ function }
    {
        Held {
            holding: Holding::Own(function),
        }
    }

    /// The function.
    pub(crate) fn get(&self) -> &Function
        ensures { result.now ≡ self.now }
    {
        match &self.holding {
            Holding::Lent(f) => f,
            Holding::Own(f) => f,
        }
    }
}
