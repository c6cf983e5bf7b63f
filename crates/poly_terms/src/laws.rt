//! Laws of polynomials: facts about any polynomials, proved once.

ghost use Rattle.std.specs.Prelude.{◌≡◌, ℕ, ◌+◌, List};
ghost use Rattle.scev_base.specs.declared.ids.ExprId.{ExprId};
ghost use Rattle.poly_terms.specs.declared.term.Term.{Term};
ghost use Rattle.poly_terms.specs.Monomials.{IsMonomial, times_in, union};
ghost use Rattle.poly_terms.specs.Terms.{IsCanonical, IsTooWide, coefficient_of, HasSum, HasProduct};
ghost use Rattle.poly_terms.specs.Terms.{SumIsTooWide, ProductIsTooWide};

/// Canonical lists with the same coefficient at every monomial are equal.
pub fn one_list()
    ensures { (bits : ℕ) (left right : List Term)
        → IsCanonical bits left → IsCanonical bits right
        → ((monomial : List ExprId) → IsMonomial monomial
        → coefficient_of left monomial ≡ coefficient_of right monomial)
        → left ≡ right }
{}

/// Monomials that have each id as often are equal.
pub fn one_monomial()
    ensures { (left right : List ExprId)
        → IsMonomial left → IsMonomial right
        → ((id : ExprId) → times_in id left ≡ times_in id right)
        → left ≡ right }
{}

/// The product of two monomials is one, and has each id as often as both together.
pub fn product_of_monomials()
    ensures ascends { (left right : List ExprId) → IsMonomial right → IsMonomial (union left right) }
    ensures factors { (left right : List ExprId) (id : ExprId)
        → times_in id (union left right) ≡ times_in id left + times_in id right }
{}

/// Where a sum or a product is above the limits, each canonical list that is it is.
pub fn one_width()
    ensures sum { (bits : ℕ) (left right pairs : List Term)
        → SumIsTooWide bits left right
        → IsCanonical bits pairs → HasSum bits left right pairs → IsTooWide pairs }
    ensures product { (bits : ℕ) (left right pairs : List Term)
        → ProductIsTooWide bits left right
        → IsCanonical bits pairs → HasProduct bits left right pairs → IsTooWide pairs }
{}

/// A sum of two polynomials is one of both in the other order.
pub fn sum_commutes()
    ensures { (bits : ℕ) (left right pairs : List Term)
        → HasSum bits left right pairs → HasSum bits right left pairs }
{}

/// A sum of three polynomials is one whichever two are added first.
pub fn sum_associates()
    ensures { (bits : ℕ) (left middle right first last pairs : List Term)
        → HasSum bits left middle first → HasSum bits middle right last
        → HasSum bits first right pairs → HasSum bits left last pairs }
{}

/// A product of two polynomials is one of both in the other order.
pub fn product_commutes()
    ensures { (bits : ℕ) (left right pairs : List Term)
        → IsCanonical bits left → IsCanonical bits right
        → HasProduct bits left right pairs → HasProduct bits right left pairs }
{}
