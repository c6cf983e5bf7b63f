//! Laws of nests of loops: facts about any nest, proved once.

ghost use Rattle.std.specs.Prelude.{◌≡◌, ◌<◌, ℕ, List, Option, Some, length, slice_get};
ghost use Rattle.scev_base.specs.Nest.{Contains, HasDepth, IsNest};

/// A loop has one depth.
pub fn one_depth()
    ensures { (parents : List (Option ℕ)) (l a b : ℕ)
        → HasDepth parents l a → HasDepth parents l b → a ≡ b }
{}

/// Containment is an order of loops.
pub fn containment_is_an_order()
    ensures itself { (parents : List (Option ℕ)) (l : ℕ) → Contains parents l l }
    ensures again { (parents : List (Option ℕ)) (a b c : ℕ)
        → Contains parents a b → Contains parents b c → Contains parents a c }
    ensures each_other { (parents : List (Option ℕ)) (a b : ℕ)
        → IsNest parents → a < length parents
        → Contains parents a b → Contains parents b a → a ≡ b }
{}

/// A list of parents is a nest where each parent is a loop of the list and some rank, as a loop's depth or how many
/// blocks it doesn't have, falls from each loop to its parent.
pub fn falling_parents_are_a_nest()
    ensures { (parents : List (Option ℕ)) (rank : ℕ → ℕ)
        → ((l parent : ℕ) → slice_get parents l ≡ Some (Some parent) → parent < length parents)
        → ((l parent : ℕ) → slice_get parents l ≡ Some (Some parent) → rank parent < rank l)
        → IsNest parents }
{}
