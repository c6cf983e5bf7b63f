//! Laws of plain trees: facts about any trees, proved once. Each is a function that does nothing.

ghost use Rattle.std.specs.Prelude.{◌≡◌, ℕ, Option, Some};
ghost use Rattle.scev_tree.specs.Tree.{Tree, Terms, Factors, Atom};
ghost use Rattle.scev_tree.specs.Order.{tree_code, atom_code};
ghost use Rattle.scev_tree.specs.Canonical.{with_term};
ghost use Rattle.scev_tree.specs.Value.{sum, product, terms_value, factors_value};

/// Trees are ordered by codes, and two trees of one code are one. So are two atoms.
pub fn one_tree()
    ensures trees { (a b : Tree) → tree_code a ≡ tree_code b → a ≡ b }
    ensures atoms { (a b : Atom) → atom_code a ≡ atom_code b → a ≡ b }
{}

/// Terms with a monomial more have the sum of both as their value, where that is a number.
///
/// They may have a value where the sum has none: a coefficient that becomes 0 takes its monomial away, whether that has
/// a value or not.
pub fn terms_are_added()
    ensures { (held : ℕ → Option ℕ) (turns : ℕ → ℕ)
        (w : ℕ) (factors : Factors) (coefficient : ℕ) (terms : Terms) (value : ℕ)
        → sum w (product w (factors_value held turns w factors) (Some coefficient))
        (terms_value held turns w terms) ≡ Some value
        → terms_value held turns w (with_term w factors coefficient terms) ≡ Some value }
{}
