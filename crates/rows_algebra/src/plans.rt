//! Sums, multiples and products of recurrences: the steps of their plans, and what comes of them.

ghost use Rattle.std.specs.Prelude.{◌≡◌, length};

use self::Formed::{Multiple, Product, Sum};
use binomial_eval::eval_rec;
use rec_algebra::PlanStep::{Add, Mul};
use rec_algebra::{Plan, PlanStep, Residues, add_plan, carry_out, mul_plan, scale_plan};
use scev_base::{Steps, Width};
use std::alloc::{AllocError, Global};
use std::process::Abort;
use std::test::Fail;

const DOUBLE: Width = Width { bits: 64 };

/// A recurrence that is formed of others, by how many parts they have.
#[derive(Clone, Copy)]
enum Formed {
    Sum(u8, u8),
    Multiple(u8),
    Product(u8, u8),
}

/// Steps by hand and the places of the result, with the parts f0, f1 .. of the first operand at the places 0, 1 ..,
/// and those of the second behind them.
const PLANS: [(Formed, &[PlanStep], &[u64]); 4] = [
    (Product(1, 1), &[Mul(0, 1)], &[2]),
    // f0 at 0, f1 at 1, g0 at 2, g1 at 3. The last suffix of f is taken first.
    (
        Product(2, 2),
        &[
            Mul(1, 3),
            Mul(1, 2),
            Mul(0, 3),
            Mul(0, 2),
            Add(6, 5),
            Add(8, 4),
            Add(4, 4),
        ],
        &[7, 9, 10],
    ),
    // The further parts of the longer one are taken over.
    (Sum(2, 4), &[Add(0, 2), Add(1, 3)], &[6, 7, 4, 5]),
    // The factor stands at 0.
    (Multiple(3), &[Mul(0, 1), Mul(0, 2), Mul(0, 3)], &[4, 5, 6]),
];

fn plan(rt: &impl Abort, alloc: Global, formed: Formed) -> Result<Plan, AllocError> {
    match formed {
        Sum(m, n) => add_plan(alloc, u64::from(m), u64::from(n)),
        Multiple(n) => scale_plan(alloc, u64::from(n)),
        Product(m, n) => {
            assert!(rt; 1 <= m && 1 <= n);
            mul_plan(alloc, u64::from(m), u64::from(n))
        }
    }
}

#[test]
fn steps_by_hand(rt: HostRuntime) -> Result<(), Fail> {
    for (formed, steps, results) in PLANS {
        let plan = plan(&rt, rt.alloc(), formed)?;
        assert_eq!(rt; plan.steps(), steps);
        assert_eq!(rt; plan.result(), results);
        assert_eq!(rt; plan.step(steps.len()), None);
    }
    Ok(())
}

/// How many products the plan has.
fn products(plan: &Plan) -> usize {
    plan.steps()
        .iter()
        .filter(|step| matches!(step, Mul(_, _)))
        .count()
}

/// Plans have no limit of their own, and either list of a sum may have no parts.
#[test]
fn any_number_of_parts(rt: HostRuntime) -> Result<(), Fail> {
    let product = mul_plan(rt.alloc(), 12, 10)?;
    assert_eq!(rt; product.parts(), 22);
    assert_eq!(rt; products(&product), 120);
    assert_eq!(rt; product.result().len(), 21);
    let sum = add_plan(rt.alloc(), 0, 3)?;
    assert_eq!(rt; sum.steps(), [].as_slice());
    assert_eq!(rt; sum.result(), [0, 1, 2].as_slice());
    Ok(())
}

/// What comes of the plan over residues modulo 2^64.
fn carried(alloc: Global, plan: &Plan, operands: &[u64]) -> Result<Vec<u64>, AllocError>
    requires { length operands.now ≡ plan.now.parts }
{
    carry_out(alloc, &Residues { width: DOUBLE }, plan, operands)
}

#[test]
fn sums_and_multiples(rt: HostRuntime) -> Result<(), Fail> {
    let alloc = rt.alloc();
    let sum = carried(
        alloc,
        &add_plan(alloc, 2, 4)?,
        &[1, 2, 10, 20, 30, u64::MAX],
    )?;
    assert_eq!(rt; sum.as_slice(), [11, 22, 30, u64::MAX].as_slice());
    let multiple = carried(alloc, &scale_plan(alloc, 3)?, &[3, 5, 7, u64::MAX])?;
    assert_eq!(rt; multiple.as_slice(), [15, 21, u64::MAX - 2].as_slice());
    Ok(())
}

/// Two recurrences of two parts, their product, and its number at turn 5, modulo 2^64.
const PRODUCTS: [([u64; 4], [u64; 3], u64); 3] = [
    // t · t
    ([0, 1, 0, 1], [0, 1, 2], 25),
    // (1 + 2t)(3 + t)
    ([1, 2, 3, 1], [3, 9, 4], 88),
    // t · -t
    (
        [0, 1, 0, u64::MAX],
        [0, u64::MAX, u64::MAX - 1],
        u64::MAX - 24,
    ),
];

#[test]
fn products_of_recurrences(rt: HostRuntime) -> Result<(), Fail> {
    let plan = mul_plan(rt.alloc(), 2, 2)?;
    for (operands, product, fifth) in PRODUCTS {
        let parts = carried(rt.alloc(), &plan, operands.as_slice())?;
        assert_eq!(rt; parts.as_slice(), product.as_slice());
        assert_eq!(rt;
            eval_rec(product.as_slice(), 5, DOUBLE, &mut Steps::new(())),
            fifth
        );
    }
    Ok(())
}

/// C(t, 5) · C(t, 4) has C(9, 4) = 126 as its ninth difference.
#[test]
fn degree_five_by_degree_four(rt: HostRuntime) -> Result<(), Fail> {
    let plan = mul_plan(rt.alloc(), 6, 5)?;
    let product = carried(rt.alloc(), &plan, &[0, 0, 0, 0, 0, 1, 0, 0, 0, 0, 1])?;
    assert_eq!(rt; product.len(), 10);
    assert_eq!(rt; product.as_slice().last().copied(), Some(126));
    Ok(())
}
