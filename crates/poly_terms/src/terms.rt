//! Polynomials modulo 2^w.

ghost use Rattle.std.specs.Prelude.{◌≡◌, ℕ, ◌+◌, ◌*◌, ◌%◌, ◌^◌, slice_get, IfOk, IfErr};
ghost use Rattle.std.specs.Option.{option_map};
ghost use Rattle.poly_terms.specs.Terms.{IsCanonical, IsTooWide, HasSum, HasProduct};
ghost use Rattle.poly_terms.specs.Terms.{IsConstant, IsAtom, SumIsTooWide, ProductIsTooWide, value_of, as_term};

use crate::arithmetic::{product_of, sum_of};
use crate::error::TermError;
use crate::term::Term;
use scev_base::{ExprId, Width, trunc};
use sqlite_items::Items;
use std::alloc::{AllocError, Global};
use std::marker::Model;

/// A polynomial modulo 2^w over atoms, of whatever size: a finite map from monomials, multisets of atoms' ids,
/// to residues other than 0. Contracts see the width and the pairs of the map in one order: those of fewer
/// factors first, and those of as many by their ids. So polynomials with equal coefficients are equal.
///
/// The calls that make one keep to the limits: at most `scev_base::limits::MONOMIALS` monomials, each of at most
/// `scev_base::limits::FACTORS` factors. One of given pairs may be above them.
#[derive(Debug, Drop)]
pub struct Terms {
    width: Width,
    pairs: Items<Term>,
}

impl Model for Terms {
    ghost use Rattle.poly_terms.specs.Terms.{Polynomial, IsCanonical};

    ghost Value = { Polynomial };

    ghost view = { λ t. record { bits = t.width.bits; pairs = t.pairs } };

    ghost invariant = { λ t. IsCanonical t.width.bits t.pairs };
}

impl Terms {
    /// The polynomial that is the residue of `n` modulo 2 to the width. It fails only where no memory is
    /// found.
    pub fn constant(alloc: Global, n: u64, w: Width) -> Result<Terms, AllocError>
        ensures width { IfOk result (λ terms. terms.bits ≡ w.bits) }
        ensures canonical { IfOk result (λ terms. IsCanonical w.bits terms.pairs) }
        ensures within { IfOk result (λ terms. IsTooWide terms.pairs → ⊥) }
        ensures constant { IfOk result (λ terms. IsConstant w.bits n terms.pairs) }
    {
        let mut pairs = Vec::new(alloc);
        let coefficient = trunc(n, w);
        if coefficient != 0 {
            pairs.push(Term::copied(alloc, &[], coefficient)?)?;
        }
        Ok(Terms::from_pairs(w, Items::from_vec(pairs)))
    }

    /// The polynomial that is one atom. It fails only where no memory is found.
    pub fn atom(alloc: Global, id: ExprId, w: Width) -> Result<Terms, AllocError>
        ensures width { IfOk result (λ terms. terms.bits ≡ w.bits) }
        ensures canonical { IfOk result (λ terms. IsCanonical w.bits terms.pairs) }
        ensures within { IfOk result (λ terms. IsTooWide terms.pairs → ⊥) }
        ensures atom { IfOk result (λ terms. IsAtom id terms.pairs) }
    {
        let mut pairs = Vec::new(alloc);
        pairs.push(Term::copied(alloc, &[id], 1)?)?;
        Ok(Terms::from_pairs(w, Items::from_vec(pairs)))
    }

    /// The polynomial of these pairs, of whatever size. They are moved, and it takes no memory.
    pub fn from_pairs(width: Width, pairs: Items<Term>) -> Terms
        requires { IsCanonical width.bits pairs }
        ensures { result ≡ record { bits = width.bits; pairs = pairs } }
    {
        Terms { width, pairs }
    }

    /// The pairs. They are moved, and it takes no memory.
    pub fn into_pairs(self) -> Items<Term>
        ensures pairs { result ≡ self.pairs }
        ensures canonical { IsCanonical self.bits self.pairs }
    {
        let Terms { pairs, .. } = self;
        pairs
    }

    /// The pairs, in order.
    pub fn pairs(&self) -> &[Term]
        ensures pairs { result.now ≡ self.now.pairs }
        ensures canonical { IsCanonical self.now.bits self.now.pairs }
    {
        self.pairs.as_slice()
    }

    /// The width: the polynomial is one modulo 2 to it.
    pub fn width(&self) -> Width
        ensures width { result.bits ≡ self.now.bits }
        ensures canonical { IsCanonical self.now.bits self.now.pairs }
    {
        self.width
    }

    /// The pair at this position: the ids of the monomial's factors in ascending order, each as often as it
    /// is a factor, and the coefficient, from 1 to 2^w - 1. It is None exactly past the last pair. It takes
    /// no memory.
    pub fn get(&self, i: usize) -> Option<(&[ExprId], u64)>
        ensures pair { option_map as_term result ≡ slice_get self.now.pairs i }
        ensures canonical { IsCanonical self.now.bits self.now.pairs }
    {
        let term = self.pairs.get(i)?;
        Some((term.ids.as_slice(), term.coefficient))
    }

    /// The sum of two polynomials of one width, as by `sum_of`.
    pub fn add(&self, alloc: Global, other: &Terms) -> Result<Terms, TermError>
        requires { self.now.bits ≡ other.now.bits }
        ensures width { IfOk result (λ terms. terms.bits ≡ self.now.bits) }
        ensures canonical { IfOk result (λ terms. IsCanonical self.now.bits terms.pairs) }
        ensures within { IfOk result (λ terms. IsTooWide terms.pairs → ⊥) }
        ensures sum { IfOk result (λ terms. HasSum self.now.bits self.now.pairs other.now.pairs terms.pairs) }
        ensures value { IfOk result (λ terms. (atoms : ℕ → ℕ) → value_of atoms terms.pairs % 2 ^ self.now.bits
            ≡ (value_of atoms self.now.pairs + value_of atoms other.now.pairs) % 2 ^ self.now.bits) }
        ensures too_wide { IfErr result (λ error. error ≡ TermError.TooWide
            → SumIsTooWide self.now.bits self.now.pairs other.now.pairs) }
    {
        sum_of(alloc, self.width(), self.pairs(), other.pairs())
    }

    /// The product of two polynomials of one width, as by `product_of`.
    pub fn mul(&self, alloc: Global, other: &Terms) -> Result<Terms, TermError>
        requires { self.now.bits ≡ other.now.bits }
        ensures width { IfOk result (λ terms. terms.bits ≡ self.now.bits) }
        ensures canonical { IfOk result (λ terms. IsCanonical self.now.bits terms.pairs) }
        ensures within { IfOk result (λ terms. IsTooWide terms.pairs → ⊥) }
        ensures product { IfOk result (λ terms.
            HasProduct self.now.bits self.now.pairs other.now.pairs terms.pairs) }
        ensures value { IfOk result (λ terms. (atoms : ℕ → ℕ) → value_of atoms terms.pairs % 2 ^ self.now.bits
            ≡ (value_of atoms self.now.pairs * value_of atoms other.now.pairs) % 2 ^ self.now.bits) }
        ensures too_wide { IfErr result (λ error. error ≡ TermError.TooWide
            → ProductIsTooWide self.now.bits self.now.pairs other.now.pairs) }
    {
        product_of(alloc, self.width(), self.pairs(), other.pairs())
    }
}
