//! The order of expressions.

ghost use Rattle.std.specs.Prelude.{◌≡◌, ◌<◌, ℕ, IsTrue, List, length, map};
ghost use Rattle.std.specs.Ordering.{MatchOrdering, nat_cmp, ordering_then};
ghost use Rattle.scev_tree.specs.Tree.{polynomial, parts_of};
ghost use Rattle.scev_tree.specs.Order.{lower, tree_code, atom_code, monomial_code, terms_code, factors_code};
ghost use Rattle.scev_tree.specs.Order.{parts_code, coefficients};
ghost use Rattle.scev_arena.specs.Meaning.{Meant, meanings, tree_of, atom_of, factors_at, terms_at};
ghost use Rattle.scev_arena.specs.Standing.{IsTreeAt, AreTrees, AreAtoms, AreOverAtoms};
ghost use Rattle.scev_walk.specs.Reading.{IsSomeAtomAt, AreBelow, AreOverBelow, code_order, counted_code};

use crate::kinds::compare_kinds;
use crate::nodes::{atom_at, tree_at};
use poly_terms::Term;
use scev_arena::Arena;
use scev_base::ExprId;
use std::cmp::Ordering;

/// Which of two trees stands first: the one of fewer monomials; of as many, the one whose first monomial that differs
/// stands first; then by the coefficients, and last by the width. They are equal exactly where they are one.
///
/// It reads both up to where they first differ.
pub fn compare(arena: &Arena, left: ExprId, right: ExprId) -> Ordering
    requires left { IsTreeAt arena.now left }
    requires right { IsTreeAt arena.now right }
    ensures { MatchOrdering result
        (IsTrue (lower (tree_code (tree_of arena.now left)) (tree_code (tree_of arena.now right))))
        (left ≡ right)
        (IsTrue (lower (tree_code (tree_of arena.now right)) (tree_code (tree_of arena.now left)))) }
{
    trees(arena, arena.len() as u64, left, right)
}

/// Which of two monomials stands first: the one of fewer factors, and of as many the one whose first factor that
/// differs stands first. Factors stand by their kinds, widths, loops, registers, and then by their parts from the
/// left. Both are monomials of some widths. They are equal exactly where they have the same factors.
pub fn compare_monomials(arena: &Arena, left: &[ExprId], right: &[ExprId]) -> Ordering
    requires left { (w : ℕ) × AreAtoms arena.now w left.now }
    requires right { (w : ℕ) × AreAtoms arena.now w right.now }
    ensures { MatchOrdering result
        (IsTrue (lower (monomial_code (factors_at (meanings arena.now) left.now))
        (monomial_code (factors_at (meanings arena.now) right.now))))
        (left.now ≡ right.now)
        (IsTrue (lower (monomial_code (factors_at (meanings arena.now) right.now))
        (monomial_code (factors_at (meanings arena.now) left.now)))) }
{
    monomials(arena, arena.len() as u64, left, right)
}

/// Which of two trees stands first. The left one stands below a place.
#[cycle(walk)]
fn trees(arena: &Arena, below: u64, left: ExprId, right: ExprId) -> Ordering
    requires left { IsTreeAt arena.now left }
    requires right { IsTreeAt arena.now right }
    requires below { left.0 < below }
    ensures { result ≡ code_order (tree_code (tree_of arena.now left)) (tree_code (tree_of arena.now right)) }
{
    if left.0 == right.0 {
        return Ordering::Equal;
    }
    let (width, terms) = tree_at(arena, left);
    let (other_width, others) = tree_at(arena, right);
    let by_terms = polynomials(arena, left.0, terms, others);
    by_terms.then(width.bits.cmp(&other_width.bits))
}

/// Which of two polynomials stands first, before their widths count.
#[cycle(walk)]
fn polynomials(arena: &Arena, below: u64, left: &[Term], right: &[Term]) -> Ordering
    requires left { (w : ℕ) × AreOverAtoms arena.now w left.now }
    requires right { (w : ℕ) × AreOverAtoms arena.now w right.now }
    requires below { AreOverBelow below left.now }
    ensures { (w v : ℕ) → ordering_then result (nat_cmp w v)
        ≡ code_order (tree_code (polynomial w (terms_at (meanings arena.now) left.now)))
        (tree_code (polynomial v (terms_at (meanings arena.now) right.now))) }
{
    match left.len().cmp(&right.len()) {
        Ordering::Equal => match each_monomial(arena, below, left, right) {
            Ordering::Equal => each_coefficient(left, right),
            by_monomials => by_monomials,
        },
        by_count => by_count,
    }
}

/// Which of as many monomials stand first, by the first two that differ.
#[cycle(walk)]
fn each_monomial(arena: &Arena, below: u64, left: &[Term], right: &[Term]) -> Ordering
    requires left { (w : ℕ) × AreOverAtoms arena.now w left.now }
    requires right { (w : ℕ) × AreOverAtoms arena.now w right.now }
    requires below { AreOverBelow below left.now }
    requires as_many { length left.now ≡ length right.now }
    ensures { result ≡ code_order (terms_code (terms_at (meanings arena.now) left.now))
        (terms_code (terms_at (meanings arena.now) right.now)) }
{
    for i in 0..left.len() {
        let (monomial, other) = (left[i].ids.as_slice(), right[i].ids.as_slice());
        match monomials(arena, below, monomial, other) {
            Ordering::Equal => {}
            by_monomial => return by_monomial,
        }
    }
    Ordering::Equal
}

/// Which of as many coefficients are lower, by the first two that differ.
fn each_coefficient(left: &[Term], right: &[Term]) -> Ordering
    requires as_many { length left.now ≡ length right.now }
    ensures { (meant : List Meant) → result
        ≡ code_order (coefficients (terms_at meant left.now)) (coefficients (terms_at meant right.now)) }
{
    for i in 0..left.len() {
        match left[i].coefficient.cmp(&right[i].coefficient) {
            Ordering::Equal => {}
            by_coefficient => return by_coefficient,
        }
    }
    Ordering::Equal
}

/// Which of two monomials stands first.
#[cycle(walk)]
fn monomials(arena: &Arena, below: u64, left: &[ExprId], right: &[ExprId]) -> Ordering
    requires left { (w : ℕ) × AreAtoms arena.now w left.now }
    requires right { (w : ℕ) × AreAtoms arena.now w right.now }
    requires below { AreBelow below left.now }
    ensures { result ≡ code_order (monomial_code (factors_at (meanings arena.now) left.now))
        (monomial_code (factors_at (meanings arena.now) right.now)) }
{
    match left.len().cmp(&right.len()) {
        Ordering::Equal => each_factor(arena, below, left, right),
        by_count => by_count,
    }
}

/// Which of as many factors stand first, by the first two that differ.
#[cycle(walk)]
fn each_factor(arena: &Arena, below: u64, left: &[ExprId], right: &[ExprId]) -> Ordering
    requires left { (w : ℕ) × AreAtoms arena.now w left.now }
    requires right { (w : ℕ) × AreAtoms arena.now w right.now }
    requires below { AreBelow below left.now }
    requires as_many { length left.now ≡ length right.now }
    ensures { result ≡ code_order (factors_code (factors_at (meanings arena.now) left.now))
        (factors_code (factors_at (meanings arena.now) right.now)) }
{
    for i in 0..left.len() {
        match atoms(arena, below, left[i], right[i]) {
            Ordering::Equal => {}
            by_factor => return by_factor,
        }
    }
    Ordering::Equal
}

/// Which of two atoms stands first. The left one stands below a place.
#[cycle(walk)]
fn atoms(arena: &Arena, below: u64, left: ExprId, right: ExprId) -> Ordering
    requires left { IsSomeAtomAt arena.now left }
    requires right { IsSomeAtomAt arena.now right }
    requires below { left.0 < below }
    ensures { result ≡ code_order (atom_code (atom_of arena.now left)) (atom_code (atom_of arena.now right)) }
{
    if left.0 == right.0 {
        return Ordering::Equal;
    }
    let (kind, width, parts) = atom_at(arena, left);
    let (other_kind, other_width, other_parts) = atom_at(arena, right);
    match compare_kinds(kind, width, other_kind, other_width) {
        Ordering::Equal => compare_parts(arena, left.0, parts, other_parts),
        by_kind => by_kind,
    }
}

/// Which of the parts of two atoms stand first: those that are fewer, and of as many by the first two that differ.
#[cycle(walk)]
fn compare_parts(arena: &Arena, below: u64, left: &[ExprId], right: &[ExprId]) -> Ordering
    requires left { AreTrees arena.now left.now }
    requires right { AreTrees arena.now right.now }
    requires below { AreBelow below left.now }
    ensures { result ≡ code_order (counted_code (parts_of (map (tree_of arena.now) left.now)))
        (counted_code (parts_of (map (tree_of arena.now) right.now))) }
{
    match left.len().cmp(&right.len()) {
        Ordering::Equal => each_part(arena, below, left, right),
        by_count => by_count,
    }
}

/// Which of as many parts stand first, by the first two that differ.
#[cycle(walk)]
fn each_part(arena: &Arena, below: u64, left: &[ExprId], right: &[ExprId]) -> Ordering
    requires left { AreTrees arena.now left.now }
    requires right { AreTrees arena.now right.now }
    requires below { AreBelow below left.now }
    requires as_many { length left.now ≡ length right.now }
    ensures { result ≡ code_order (parts_code (parts_of (map (tree_of arena.now) left.now)))
        (parts_code (parts_of (map (tree_of arena.now) right.now))) }
{
    for i in 0..left.len() {
        match trees(arena, below, left[i], right[i]) {
            Ordering::Equal => {}
            by_part => return by_part,
        }
    }
    Ordering::Equal
}
