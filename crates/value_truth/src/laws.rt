//! Laws of truth: facts about any run of any function that is accepted, proved once.

ghost use Rattle.std.specs.Prelude.{ℕ, List};
ghost use Rattle.ir_model.specs.declared.function.Function.{Function};
ghost use Rattle.ir_model.specs.declared.signature.Signatures.{Signatures};
ghost use Rattle.ir_model.specs.WellMade.{IsWellMade};
ghost use Rattle.ir_rules.specs.Accepted.{IsAccepted};
ghost use Rattle.loop_regions.specs.Loops.{Loop};
ghost use Rattle.scev_tree.specs.Tree.{Tree};
ghost use Rattle.value_truth.specs.Available.{IsInScope};
ghost use Rattle.value_truth.specs.Truth.{IsTrueAnew, IsAlwaysTrueOf};

/// An expression of a value that names only what may be named where the value is defined is always true of it, if it is
/// true just after each definition: no later step changes what it names while the value is available.
pub fn what_is_true_stays_true()
    ensures { (signatures : Signatures) (f : Function) (loops : List Loop) (v : ℕ) (tree : Tree)
        → IsWellMade f → IsAccepted signatures f
        → IsInScope f loops v tree → IsTrueAnew f loops v tree → IsAlwaysTrueOf f loops v tree }
{}
