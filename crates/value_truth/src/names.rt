//! Laws of a value's own name. Each is a function that does nothing.

ghost use Rattle.std.specs.Prelude.{◌≡◌, ℕ, List, Option};
ghost use Rattle.scev_base.specs.declared.ids.LoopId.{LoopId};
ghost use Rattle.ir_model.specs.declared.types.IrType.TheVariants.{Int};
ghost use Rattle.ir_model.specs.declared.function.Function.{Function};
ghost use Rattle.ir_model.specs.declared.signature.Signatures.{Signatures};
ghost use Rattle.ir_model.specs.WellMade.{IsWellMade};
ghost use Rattle.ir_rules.specs.Accepted.{IsAccepted};
ghost use Rattle.ir_rules.specs.Types.{kind_of};
ghost use Rattle.loop_regions.specs.Loops.{Loop};
ghost use Rattle.scev_tree.specs.declared.kind.Kind.TheVariants as kind;
ghost use Rattle.scev_tree.specs.Tree.{Tree, of_atom, atom, no_parts};
ghost use Rattle.value_truth.specs.Truth.{IsTrueOf, IsAlwaysTrueOf};

/// An integer's own name is always true of it.
pub fn own_names_are_true()
    ensures { (signatures : Signatures) (f : Function) (loops : List Loop) (v w : ℕ) (home : Option LoopId)
        → IsWellMade f → IsAccepted signatures f → kind_of f v ≡ Int w
        → IsAlwaysTrueOf f loops v (of_atom w (atom (kind.Leaf (record { 0 = v }) home) w no_parts)) }
{}

/// What is always true of a value is true of it just after it is defined.
pub fn always_is_just_after()
    ensures { (signatures : Signatures) (f : Function) (loops : List Loop) (v : ℕ) (tree : Tree)
        → IsAccepted signatures f → IsAlwaysTrueOf f loops v tree → IsTrueOf f loops v tree }
{}
