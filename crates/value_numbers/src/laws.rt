//! Laws of rows. Each is a function that does nothing.

ghost use Rattle.std.specs.Prelude.{◌≡◌, ℕ, false, List, Option, Some};
ghost use Rattle.ir_model.specs.declared.op.CastOp.{CastOp};
ghost use Rattle.ir_model.specs.declared.op.Op.{Op};
ghost use Rattle.ir_meaning.specs.declared.value.Value.{Value};
ghost use Rattle.ir_meaning.specs.State.{Registers};
ghost use Rattle.ir_meaning.specs.Step.{computed, Gives};
ghost use Rattle.scev_tree.specs.Tree.{Tree};
ghost use Rattle.scev_tree.specs.Value.{tree_value};
ghost use Rattle.scev_forms.specs.Trees.{IsTreeOf};
ghost use Rattle.scev_forms.specs.Outcome.{Done};
ghost use Rattle.value_view.specs.declared.source.Source.{Source};
ghost use Rattle.value_view.specs.declared.given.Pair.{Pair};
ghost use Rattle.value_view.specs.declared.given.Given.TheVariants as given;
ghost use Rattle.value_view.specs.Givens.{given_by};
ghost use Rattle.value_exprs.specs.Steps.{formed_pair, formed_cast};
ghost use Rattle.value_exprs.specs.WellMade.{IsWidth, AreCastWidths};
ghost use Rattle.value_truth.specs.Truth.{Denotes};
ghost use Rattle.value_numbers.specs.Held.{held_by};
ghost use Rattle.value_numbers.specs.Typed.{IsOfWidth};

/// Where expressions tell what the operands of an operation are, the one that is formed of them tells what the
/// operation gives, whatever the registers hold and at whatever turns.
pub fn rows_keep_the_value()
    ensures pair { (parents : List (Option ℕ)) (w : ℕ) (op : Op) (p : Pair) (left right : Source) (x y tree : Tree)
        (registers : Registers) (choice : ℕ) (z : Value) (held : ℕ → Option ℕ) (turns : ℕ → ℕ)
        → IsWidth w → IsOfWidth op w → given_by w op ≡ given.Pair p left right
        → IsTreeOf w x → IsTreeOf w y → formed_pair parents w p x y ≡ Some (Done tree)
        → computed registers choice op ≡ Gives z
        → Denotes (held_by registers left) (tree_value held turns x)
        → Denotes (held_by registers right) (tree_value held turns y)
        → Denotes (Some z) (tree_value held turns tree) }
    ensures cast { (parents : List (Option ℕ)) (v w : ℕ) (op : Op) (how : CastOp) (of : Source) (x tree : Tree)
        (registers : Registers) (choice : ℕ) (z : Value) (held : ℕ → Option ℕ) (turns : ℕ → ℕ)
        → IsWidth v → IsWidth w → AreCastWidths how v w → IsOfWidth op w → given_by w op ≡ given.Cast how v of
        → IsTreeOf v x → formed_cast parents w how false x ≡ Done tree
        → computed registers choice op ≡ Gives z
        → Denotes (held_by registers of) (tree_value held turns x)
        → Denotes (Some z) (tree_value held turns tree) }
{}
