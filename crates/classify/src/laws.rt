//! Laws of the classification: facts about any function, proved once.

ghost use Rattle.std.specs.Prelude.{◌≡◌, ℕ, List, Option, Some, slice_get};
ghost use Rattle.ir_model.specs.declared.function.Function.{Function};
ghost use Rattle.ir_meaning.specs.Thin.{IsThinFunction};
ghost use Rattle.loop_regions.specs.Loops.{Loop};
ghost use Rattle.loop_regions.specs.OneBlock.{one_block};
ghost use Rattle.scev_tree.specs.Tree.{affine};
ghost use Rattle.classify.specs.Recurrence.{IsRecurrence, IsAnswer};
ghost use Rattle.classify.specs.Truth.{IsTrueOf};

/// A recurrence is true of its phi: in every run of the function, each time just after the phi is defined, it
/// holds poison or the value of the recurrence at the turn of its loop.
pub fn recurrences_are_true()
    ensures { (f : Function) (b p first step : ℕ) (loops : List Loop) (k : ℕ)
        → IsThinFunction f → IsRecurrence f b p first step
        → slice_get loops k ≡ Some (one_block b)
        → IsTrueOf f loops p (affine 32 k first step) }
{}

/// What is reported of a phi of a block is one thing: a recurrence with one start and one step, or none.
pub fn one_answer()
    ensures { (f : Function) (b p : ℕ) (x y : Option (ℕ × ℕ))
        → IsAnswer f b p x → IsAnswer f b p y → x ≡ y }
{}
