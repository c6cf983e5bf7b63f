//! Laws of the normal form. Each is a function that does nothing.

ghost use Rattle.std.specs.Prelude.{◌≡◌, ℕ, ◌<◌, ◌≤◌, ◌==◌, ◌%◌, ◌^◌, ◌⊎◌, ◌↔◌, Bool, false, IsTrue};
ghost use Rattle.std.specs.Prelude.{List, [], ◌∷◌, length, map, Option, Some};
ghost use Rattle.scev_base.specs.Iterated.{iterated};
ghost use Rattle.scev_base.specs.Nest.{Contains, HasDepth, IsNest};
ghost use Rattle.scev_tree.specs.declared.kind.Kind.{Kind};
ghost use Rattle.scev_tree.specs.declared.kind.Kind.TheVariants as kind;
ghost use Rattle.scev_tree.specs.Tree.{Tree, width_of};
ghost use Rattle.scev_tree.specs.Canonical.{IsCanonical};
ghost use Rattle.scev_tree.specs.Value.{sum, product, quotient, lifted, least_in_sequence, tree_value};
ghost use Rattle.scev_forms.specs.Trees.{IsTreeOf, AreTreesOf};
ghost use Rattle.scev_forms.specs.Outcome.{Done, tested};
ghost use Rattle.scev_forms.specs.Gather.{stands_in, depth_of};
ghost use Rattle.scev_forms.specs.Sums.{tree_sum, tree_product, recurrence_of};
ghost use Rattle.scev_forms.specs.Casts.{truncated, extended, extended_when, extended_number};
ghost use Rattle.scev_forms.specs.Ranges.{StaysInRange};
ghost use Rattle.scev_forms.specs.Turns.{is_hindered, tree_at_turn};
ghost use Rattle.scev_forms.specs.Quotients.{tree_quotient};
ghost use Rattle.scev_forms.specs.Minima.{tree_minimum, tree_sequence, chosen, IsMinimum};

/// What is looked at and comes out is the tree itself.
pub fn tested_is_itself()
    ensures { (tree out : Tree) → tested tree ≡ Done out → out ≡ tree }
{}

/// Sums and products of canonical trees are canonical, of their width.
pub fn sums_are_canonical()
    ensures sum { (parents : List (Option ℕ)) (w : ℕ) (left right tree : Tree)
        → 0 < w → IsTreeOf w left → IsTreeOf w right
        → tree_sum parents w left right ≡ Done tree → IsTreeOf w tree }
    ensures product { (parents : List (Option ℕ)) (w : ℕ) (left right tree : Tree)
        → 0 < w → IsTreeOf w left → IsTreeOf w right
        → tree_product parents w left right ≡ Done tree → IsTreeOf w tree }
    ensures recurrence { (w l : ℕ) (first tree : Tree) (parts : List Tree)
        → 0 < w → IsTreeOf w first → AreTreesOf w parts
        → recurrence_of w l (first ∷ parts) ≡ Done tree → IsTreeOf w tree }
{}

/// Wherever the sum or the product of the values of two trees is a number, the tree that is formed has it as its value,
/// whatever registers hold and at whatever turns. A recurrence has the iterated sum of its parts as its value.
pub fn sums_keep_the_value()
    ensures sum { (parents : List (Option ℕ)) (w : ℕ) (left right tree : Tree)
        (held : ℕ → Option ℕ) (turns : ℕ → ℕ) (n : ℕ)
        → 0 < w → IsTreeOf w left → IsTreeOf w right
        → tree_sum parents w left right ≡ Done tree
        → sum w (tree_value held turns left) (tree_value held turns right) ≡ Some n
        → tree_value held turns tree ≡ Some n }
    ensures product { (parents : List (Option ℕ)) (w : ℕ) (left right tree : Tree)
        (held : ℕ → Option ℕ) (turns : ℕ → ℕ) (n : ℕ)
        → 0 < w → IsTreeOf w left → IsTreeOf w right
        → tree_product parents w left right ≡ Done tree
        → product w (tree_value held turns left) (tree_value held turns right) ≡ Some n
        → tree_value held turns tree ≡ Some n }
    ensures recurrence { (w l : ℕ) (first tree : Tree) (parts : List Tree)
        (held : ℕ → Option ℕ) (turns : ℕ → ℕ) (n : ℕ)
        → 0 < w → IsTreeOf w first → AreTreesOf w parts
        → recurrence_of w l (first ∷ parts) ≡ Done tree
        → iterated (sum w) (turns l) (tree_value held turns first) (map (tree_value held turns) parts) ≡ Some n
        → tree_value held turns tree ≡ Some n }
{}

/// A truncation of a canonical tree is one, and has the lowest bits of its value.
pub fn truncations_keep_the_value()
    ensures canonical { (parents : List (Option ℕ)) (w : ℕ) (tree out : Tree)
        → 0 < w → w ≤ width_of tree → IsCanonical tree
        → truncated parents w tree ≡ Done out → IsTreeOf w out }
    ensures value { (parents : List (Option ℕ)) (w : ℕ) (tree out : Tree)
        (held : ℕ → Option ℕ) (turns : ℕ → ℕ) (n : ℕ)
        → 0 < w → w ≤ width_of tree → IsCanonical tree
        → truncated parents w tree ≡ Done out
        → tree_value held turns tree ≡ Some n → tree_value held turns out ≡ Some (n % 2 ^ w) }
{}

/// An extension of a canonical tree is one, and has its value, read without sign or with it.
pub fn extensions_keep_the_value()
    ensures canonical { (k : Kind) (w : ℕ) (tree out : Tree)
        → (k ≡ kind.Zext) ⊎ (k ≡ kind.Sext) → 0 < width_of tree → width_of tree ≤ w → IsCanonical tree
        → extended k w tree ≡ Done out → IsTreeOf w out }
    ensures value { (k : Kind) (w : ℕ) (tree out : Tree) (held : ℕ → Option ℕ) (turns : ℕ → ℕ) (n : ℕ)
        → (k ≡ kind.Zext) ⊎ (k ≡ kind.Sext) → 0 < width_of tree → width_of tree ≤ w → IsCanonical tree
        → extended k w tree ≡ Done out
        → tree_value held turns tree ≡ Some n
        → tree_value held turns out ≡ Some (extended_number k (width_of tree) w n) }
{}

/// So it does where it is known that a recurrence of two parts doesn't wrap: as long as it doesn't.
pub fn extensions_within_range_keep_the_value()
    ensures canonical { (k : Kind) (w : ℕ) (no_wrap : Bool) (tree out : Tree)
        → (k ≡ kind.Zext) ⊎ (k ≡ kind.Sext) → 0 < width_of tree → width_of tree ≤ w → IsCanonical tree
        → extended_when k w no_wrap tree ≡ Done out → IsTreeOf w out }
    ensures value { (k : Kind) (w : ℕ) (no_wrap : Bool) (tree out : Tree)
        (held : ℕ → Option ℕ) (turns : ℕ → ℕ) (n : ℕ)
        → (k ≡ kind.Zext) ⊎ (k ≡ kind.Sext) → 0 < width_of tree → width_of tree ≤ w → IsCanonical tree
        → extended_when k w no_wrap tree ≡ Done out
        → (IsTrue no_wrap → StaysInRange k held turns tree)
        → tree_value held turns tree ≡ Some n
        → tree_value held turns out ≡ Some (extended_number k (width_of tree) w n) }
{}

/// The value of a canonical tree at a turn of a loop is canonical. Whenever the loop is at the turn that the count is, it
/// has the value of the tree.
pub fn turns_keep_the_value()
    ensures canonical { (parents : List (Option ℕ)) (l : ℕ) (count tree out : Tree)
        → 0 < width_of tree → IsCanonical tree → IsCanonical count
        → is_hindered parents l count tree ≡ false
        → tree_at_turn parents l count tree ≡ Done out → IsTreeOf (width_of tree) out }
    ensures value { (parents : List (Option ℕ)) (l : ℕ) (count tree out : Tree)
        (held : ℕ → Option ℕ) (turns : ℕ → ℕ) (n : ℕ)
        → 0 < width_of tree → IsCanonical tree → IsCanonical count
        → is_hindered parents l count tree ≡ false
        → tree_at_turn parents l count tree ≡ Done out
        → tree_value held turns count ≡ Some (turns l)
        → tree_value held turns tree ≡ Some n → tree_value held turns out ≡ Some n }
{}

/// A quotient of canonical trees is one, and has the quotient of their values, where that is a number.
pub fn quotients_keep_the_value()
    ensures canonical { (w : ℕ) (left right out : Tree)
        → 0 < w → IsTreeOf w left → IsTreeOf w right
        → tree_quotient w left right ≡ Done out → IsTreeOf w out }
    ensures value { (w : ℕ) (left right out : Tree) (held : ℕ → Option ℕ) (turns : ℕ → ℕ) (n : ℕ)
        → 0 < w → IsTreeOf w left → IsTreeOf w right
        → tree_quotient w left right ≡ Done out
        → quotient (tree_value held turns left) (tree_value held turns right) ≡ Some n
        → tree_value held turns out ≡ Some n }
{}

/// A minimum or a maximum of canonical trees is one, and has that of their values; so does a sequential minimum.
pub fn minima_keep_the_value()
    ensures canonical { (k : Kind) (w : ℕ) (left right out : Tree)
        → IsMinimum k → 0 < w → IsTreeOf w left → IsTreeOf w right
        → tree_minimum k w left right ≡ Done out → IsTreeOf w out }
    ensures value { (k : Kind) (w : ℕ) (left right out : Tree) (held : ℕ → Option ℕ) (turns : ℕ → ℕ) (n : ℕ)
        → IsMinimum k → 0 < w → IsTreeOf w left → IsTreeOf w right
        → tree_minimum k w left right ≡ Done out
        → lifted (chosen k w) (tree_value held turns left) (tree_value held turns right) ≡ Some n
        → tree_value held turns out ≡ Some n }
    ensures sequence_canonical { (w : ℕ) (first second out : Tree)
        → 0 < w → IsTreeOf w first → IsTreeOf w second
        → tree_sequence w first second ≡ Done out → IsTreeOf w out }
    ensures sequence_value { (w : ℕ) (first second out : Tree) (held : ℕ → Option ℕ) (turns : ℕ → ℕ) (n : ℕ)
        → 0 < w → IsTreeOf w first → IsTreeOf w second
        → tree_sequence w first second ≡ Done out
        → least_in_sequence (tree_value held turns first ∷ tree_value held turns second ∷ []) ≡ Some n
        → tree_value held turns out ≡ Some n }
{}

/// In a nest of loops what is told of two of its loops is so, and the depth of each.
pub fn loops_are_told()
    ensures containing { (parents : List (Option ℕ)) (outer inner : ℕ)
        → IsNest parents → outer < length parents → inner < length parents
        → IsTrue (stands_in parents outer inner) ↔ Contains parents outer inner }
    ensures depth { (parents : List (Option ℕ)) (l : ℕ)
        → IsNest parents → l < length parents → HasDepth parents l (depth_of parents l) }
    ensures outside { (parents : List (Option ℕ)) (outer inner : ℕ)
        → IsNest parents → (length parents ≤ outer) ⊎ (length parents ≤ inner)
        → stands_in parents outer inner ≡ (inner == outer) }
{}
