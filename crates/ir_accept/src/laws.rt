//! What the definition of a fault guarantees. The function is a law, which does nothing.

ghost use Rattle.std.specs.Prelude.{◌≡◌, ℕ};
ghost use Rattle.ir_model.specs.declared.item.Module.{Module};
ghost use Rattle.ir_model.specs.declared.rule.Rule.{Rule};
ghost use Rattle.ir_model.specs.declared.rule.Place.{Place};
ghost use Rattle.ir_rules.specs.Accepted.{IsAcceptedModule, IsFault};

/// A module is refused at one rule at most, in one function and at one place; and one that is accepted at none.
pub fn one_fault()
    ensures one { (m : Module) (rule other : Rule) (number k : ℕ) (place at : Place) → IsFault m rule number place
        → IsFault m other k at → (rule ≡ other) × (number ≡ k) × (place ≡ at) }
    ensures accepted { (m : Module) (rule : Rule) (number : ℕ) (place : Place) → IsAcceptedModule m
        → IsFault m rule number place → ⊥ }
{}
