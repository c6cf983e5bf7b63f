//! Laws of names. Each is a function that does nothing.

ghost use Rattle.std.specs.Prelude.{◌≡◌, ◌↔◌, ℕ, Bool, List, ◌∷◌, Option, All, IsTrue};
ghost use Rattle.scev_base.specs.declared.ids.LoopId.{LoopId};
ghost use Rattle.scev_tree.specs.declared.kind.Kind.{Kind};
ghost use Rattle.scev_tree.specs.declared.kind.Kind.TheVariants as kind;
ghost use Rattle.scev_tree.specs.Tree.{Tree};
ghost use Rattle.scev_tree.specs.Value.{tree_value};
ghost use Rattle.scev_tree.specs.Invariant.{MovesIn, IsInvariant};
ghost use Rattle.scev_forms.specs.Outcome.{Done};
ghost use Rattle.scev_forms.specs.Sums.{tree_sum, tree_product, recurrence_of};
ghost use Rattle.scev_forms.specs.Casts.{truncated, extended_when};
ghost use Rattle.scev_forms.specs.Quotients.{tree_quotient};
ghost use Rattle.scev_forms.specs.Minima.{tree_minimum};
ghost use Rattle.tree_names.specs.Names.{HasOnly, HasPassing, PassesNameless, IsSame};

/// Sums, products, truncations, extensions, quotients, minima and maxima name no register and no loop that their
/// operands don't name, and a recurrence names its own loop besides. It is said of any test of kinds that what names
/// nothing passes.
pub fn formed_names()
    ensures sum { (parents : List (Option ℕ)) (w : ℕ) (left right tree : Tree) (test : Kind → Bool)
        → ((k : Kind) → PassesNameless test k) → HasPassing test left → HasPassing test right
        → tree_sum parents w left right ≡ Done tree → HasPassing test tree }
    ensures product { (parents : List (Option ℕ)) (w : ℕ) (left right tree : Tree) (test : Kind → Bool)
        → ((k : Kind) → PassesNameless test k) → HasPassing test left → HasPassing test right
        → tree_product parents w left right ≡ Done tree → HasPassing test tree }
    ensures recurrence { (w : ℕ) (l : LoopId) (parts : List Tree) (tree : Tree) (test : Kind → Bool)
        → ((k : Kind) → PassesNameless test k) → All (HasPassing test) parts → IsTrue (test (kind.Rec l))
        → recurrence_of w l.0 parts ≡ Done tree → HasPassing test tree }
    ensures truncation { (parents : List (Option ℕ)) (w : ℕ) (tree out : Tree) (test : Kind → Bool)
        → ((k : Kind) → PassesNameless test k) → HasPassing test tree
        → truncated parents w tree ≡ Done out → HasPassing test out }
    ensures extension { (how : Kind) (w : ℕ) (no_wrap : Bool) (tree out : Tree) (test : Kind → Bool)
        → ((k : Kind) → PassesNameless test k) → IsTrue (test how) → HasPassing test tree
        → extended_when how w no_wrap tree ≡ Done out → HasPassing test out }
    ensures quotient { (w : ℕ) (left right tree : Tree) (test : Kind → Bool)
        → ((k : Kind) → PassesNameless test k) → HasPassing test left → HasPassing test right
        → tree_quotient w left right ≡ Done tree → HasPassing test tree }
    ensures minimum { (how : Kind) (w : ℕ) (left right tree : Tree) (test : Kind → Bool)
        → ((k : Kind) → PassesNameless test k) → IsTrue (test how) → HasPassing test left → HasPassing test right
        → tree_minimum how w left right ≡ Done tree → HasPassing test tree }
{}

/// An expression's value depends on the registers and the turns that it names alone.
pub fn named_values()
    ensures { (held other : ℕ → Option ℕ) (turns others : ℕ → ℕ) (tree : Tree)
        → HasOnly (IsSame held other turns others) tree → tree_value held turns tree ≡ tree_value other others tree }
{}

/// An expression is invariant in a loop exactly where it names nothing that moves in the loop.
pub fn invariant_by_names()
    ensures { (parents : List (Option ℕ)) (l : ℕ) (tree : Tree)
        → IsInvariant parents l tree ↔ HasOnly (λ k. MovesIn parents l k → ⊥) tree }
{}
