//! Laws of the classification.

ghost use Rattle.std.specs.Prelude.{◌≡◌, ◌↔◌, ℕ, List, Option, Contains};
ghost use Rattle.scev_tree.specs.Tree.{Tree};
ghost use Rattle.value_view.specs.declared.source.Source.{Source};
ghost use Rattle.value_exprs.specs.View.{View};
ghost use Rattle.value_exprs.specs.Dependence.{AreMutual};
ghost use Rattle.value_exprs.specs.Exprs.{IsExpr, IsOperand};

/// A value has at most one expression while some phis are in progress, in whatever order they are listed, and so has an
/// operand at a place.
pub fn one_expression()
    ensures value { (view : View) (progress other : List ℕ) (v : ℕ) (x y : Tree)
        → ((p : ℕ) → Contains progress p ↔ Contains other p)
        → IsExpr view progress v x → IsExpr view other v y → x ≡ y }
    ensures operand { (view : View) (progress other : List ℕ) (w : ℕ) (place : Option ℕ) (of : Source) (x y : Tree)
        → ((p : ℕ) → Contains progress p ↔ Contains other p)
        → IsOperand view progress w place of x → IsOperand view other w place of y → x ≡ y }
{}

/// Of the phis in progress those alone count on which a value depends and that depend on it.
pub fn mutual_phis_count()
    ensures { (view : View) (progress other : List ℕ) (v : ℕ) (tree : Tree)
        → ((p : ℕ) → AreMutual view v p → Contains progress p ↔ Contains other p)
        → IsExpr view progress v tree → IsExpr view other v tree }
{}
