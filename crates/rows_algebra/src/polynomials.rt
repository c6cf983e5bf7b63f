//! Polynomials modulo 2^w.

ghost use Rattle.std.specs.Prelude.{◌≡◌, IfOk};

use poly_terms::{Term, TermError, Terms, product_of, sum_of};
use scev_base::{ExprId, Width};
use std::alloc::Global;
use std::test::Fail;

const BYTE: Width = Width { bits: 8 };

const WORD: Width = Width { bits: 32 };

const X: ExprId = ExprId(1);

const Y: ExprId = ExprId(2);

/// Whether these are the polynomial's monomials, each with its coefficient, in order.
fn is(terms: &Terms, pairs: &[(&[ExprId], u64)]) -> bool {
    for (i, pair) in pairs.iter().enumerate() {
        if terms.get(i) != Some(*pair) {
            return false;
        }
    }
    terms.get(pairs.len()).is_none()
}

/// Whether it is above the limits.
fn is_too_wide(terms: Result<Terms, TermError>) -> bool {
    terms.is_err_and(|error| error == TermError::TooWide)
}

/// The difference of two polynomials modulo 2^32.
fn difference_of(alloc: Global, left: &Terms, right: &Terms) -> Result<Terms, TermError>
    requires left { left.now.bits ≡ 32 }
    requires right { right.now.bits ≡ 32 }
    ensures { IfOk result (λ difference. difference.bits ≡ 32) }
{
    let minus_one = Terms::constant(alloc, 0xFFFF_FFFF, WORD)?;
    left.add(alloc, &minus_one.mul(alloc, right)?)
}

/// (x + y)(x - y): the middle is gone.
#[test]
fn product_of_sum_and_difference(rt: HostRuntime) -> Result<(), Fail> {
    let alloc = rt.alloc();
    let x = Terms::atom(alloc, X, WORD)?;
    let y = Terms::atom(alloc, Y, WORD)?;
    let squares = x
        .add(alloc, &y)?
        .mul(alloc, &difference_of(alloc, &x, &y)?)?;
    assert!(rt; is(&squares, &[(&[X, X], 1), (&[Y, Y], 0xFFFF_FFFF)]));
    Ok(())
}

/// The sum of a polynomial modulo 2^32 and a number.
fn plus(alloc: Global, terms: &Terms, n: u64) -> Result<Terms, TermError>
    requires { terms.now.bits ≡ 32 }
    ensures { IfOk result (λ sum. sum.bits ≡ 32) }
{
    terms.add(alloc, &Terms::constant(alloc, n, WORD)?)
}

/// (y + x)(x + 1) + 3: those of fewer factors come first.
#[test]
fn order_of_monomials(rt: HostRuntime) -> Result<(), Fail> {
    let alloc = rt.alloc();
    let x = Terms::atom(alloc, X, WORD)?;
    let both = Terms::atom(alloc, Y, WORD)?.add(alloc, &x)?;
    let product = both.mul(alloc, &plus(alloc, &x, 1)?)?;
    let ordered: [(&[ExprId], u64); 5] = [
        (&[], 3),
        (&[X], 1),
        (&[Y], 1),
        (&[X, X], 1),
        (&[X, Y], 1),
    ];
    assert!(rt; is(&plus(alloc, &product, 3)?, &ordered));
    Ok(())
}

#[test]
fn multiples_of_256_are_gone(rt: HostRuntime) -> Result<(), Fail> {
    let alloc = rt.alloc();
    let sixteen = Terms::constant(alloc, 16, BYTE)?;
    assert!(rt; is(&sixteen.mul(alloc, &sixteen)?, &[]));
    assert!(rt; is(&Terms::constant(alloc, 256, BYTE)?, &[]));
    let half = Terms::constant(alloc, 128, BYTE)?;
    let some = half.mul(alloc, &Terms::atom(alloc, X, BYTE)?)?;
    assert!(rt; is(&some, &[(&[X], 128)]));
    assert!(rt; is(&some.add(alloc, &some)?, &[]));
    Ok(())
}

/// Pairs that are moved out of a polynomial and back, and sums and products of them by reference.
#[test]
fn pairs_alone(rt: HostRuntime) -> Result<(), Fail> {
    let alloc = rt.alloc();
    let x = Terms::atom(alloc, X, WORD)?.into_pairs();
    let y = Terms::atom(alloc, Y, WORD)?;
    let sum = sum_of(alloc, WORD, x.as_slice(), y.pairs())?;
    assert!(rt; is(&sum, &[(&[X], 1), (&[Y], 1)]));
    let product = product_of(alloc, WORD, x.as_slice(), sum.pairs())?;
    assert!(rt; is(&product, &[(&[X, X], 1), (&[X, Y], 1)]));
    let moved = Terms::from_pairs(WORD, x);
    assert_eq!(rt; moved.pairs(), [Term::copied(alloc, &[X], 1)?].as_slice());
    Ok(())
}

/// The sum of so many atoms, from this number on.
fn sum_of_atoms(alloc: Global, first: u64, count: u8) -> Result<Terms, TermError>
    ensures { IfOk result (λ sum. sum.bits ≡ 32) }
{
    let mut sum = Terms::constant(alloc, 0, WORD)?;
    for i in 0..count {
        let atom = Terms::atom(alloc, ExprId(first.wrapping_add(u64::from(i))), WORD)?;
        sum = sum.add(alloc, &atom)?;
    }
    Ok(sum)
}

/// At most 32 monomials.
#[test]
fn number_of_monomials(rt: HostRuntime) -> Result<(), Fail> {
    let alloc = rt.alloc();
    let six = sum_of_atoms(alloc, 10, 6)?;
    let thirty = sum_of_atoms(alloc, 0, 5)?.mul(alloc, &six)?;
    assert_eq!(rt; thirty.get(29), Some((&[ExprId(4), ExprId(15)][..], 1)));
    assert!(rt; thirty.get(30).is_none());
    assert!(rt; is_too_wide(sum_of_atoms(alloc, 0, 6)?.mul(alloc, &six)));
    let most = sum_of_atoms(alloc, 0, 32)?;
    assert_eq!(rt; most.get(31), Some((&[ExprId(31)][..], 1)));
    assert!(rt; is_too_wide(most.add(alloc, &Terms::constant(alloc, 1, WORD)?)));
    assert_eq!(rt;
        most.add(alloc, &most)?.get(31),
        Some((&[ExprId(31)][..], 2))
    );
    Ok(())
}

/// The atom to this power.
fn power(alloc: Global, id: ExprId, exponent: u8) -> Result<Terms, TermError>
    ensures { IfOk result (λ power. power.bits ≡ 32) }
{
    let mut power = Terms::constant(alloc, 1, WORD)?;
    for _i in 0..exponent {
        power = power.mul(alloc, &Terms::atom(alloc, id, WORD)?)?;
    }
    Ok(power)
}

/// At most 32 factors of each.
#[test]
fn number_of_factors(rt: HostRuntime) -> Result<(), Fail> {
    let alloc = rt.alloc();
    let most = power(alloc, X, 32)?;
    assert!(rt; is(&most, &[(&[X; 32], 1)]));
    assert!(rt; is_too_wide(most.mul(alloc, &Terms::atom(alloc, X, WORD)?)));
    assert!(rt; is(&most.mul(alloc, &Terms::constant(alloc, 0, WORD)?)?, &[]));
    Ok(())
}
