//! The plans of a sum, of a multiple and of a product.

ghost use Rattle.std.specs.Prelude.{◌≡◌, ◌+◌, ◌-◌, ◌^◌, ◌<◌, ◌≤◌, max, [], length, slice_index_or, IfOk};
ghost use Rattle.std.specs.List.{range_with_len};
ghost use Rattle.rec_algebra.specs.Plans.{IsPlan};
ghost use Rattle.rec_algebra.specs.Forming.{sum_plan, multiple_plan, product_plan};

use crate::draft::Draft;
use crate::plan::{Plan, PlanStep};
use sqlite_items::Items;
use std::alloc::{AllocError, Global};
use std::collections::VecDeque;

/// The plan of the sum of two recurrences of one loop, of `m` and of `n` parts. They add part by part; where
/// one is longer its further parts are taken over. It has max(m, n) parts. It fails only where no memory is
/// found.
pub fn add_plan(alloc: Global, m: u64, n: u64) -> Result<Plan, AllocError>
    requires { m + n < 2 ^ 63 }
    ensures plan { IfOk result (λ plan. plan ≡ sum_plan m n) }
    ensures operands { IfOk result (λ plan. plan.parts ≡ m + n) }
    ensures count { IfOk result (λ plan. length plan.results ≡ max m n) }
    ensures places { IfOk result IsPlan }
{
    let left = places_from(alloc, 0, m)?;
    let right = places_from(alloc, m, n)?;
    let mut draft = Draft::new(alloc, m + n);
    let mut results = Vec::new(alloc);
    draft.sum(&mut results, &left, &right, &[])?;
    Ok(draft.into_plan(Items::from_vec(results)))
}

/// The plan of the product of one factor, the first operand, and a recurrence of `n` parts: each part is
/// multiplied. It fails only where no memory is found.
pub fn scale_plan(alloc: Global, n: u64) -> Result<Plan, AllocError>
    requires { 1 + n < 2 ^ 63 }
    ensures plan { IfOk result (λ plan. plan ≡ multiple_plan n) }
    ensures operands { IfOk result (λ plan. plan.parts ≡ 1 + n) }
    ensures count { IfOk result (λ plan. length plan.results ≡ n) }
    ensures places { IfOk result IsPlan }
{
    let mut draft = Draft::new(alloc, 1 + n);
    let mut results = Vec::new(alloc);
    for i in 0..n {
        results.push(draft.add(PlanStep::Mul(0, 1 + i))?)?;
    }
    Ok(draft.into_plan(Items::from_vec(results)))
}

/// The plan of the product of two recurrences of one loop, of `m` and of `n` parts, at least one each (Bachmann,
/// Wang, Zima 1994, Chains of Recurrences). The product of f and g starts at the product of their first
/// parts. With Df for f without its first part, its step is f·Dg + g·Df + Df·Dg. It has m + n - 1 parts.
///
/// The product of each suffix of f with each suffix of g is formed once, in m · n products. The suffixes of f
/// are taken from the last part to the whole, and for each of them those of g in the same order. It fails only
/// where no memory is found.
pub fn mul_plan(alloc: Global, m: u64, n: u64) -> Result<Plan, AllocError>
    requires left { 1 ≤ m }
    requires right { 1 ≤ n }
    requires few { m + n < 2 ^ 63 }
    ensures plan { IfOk result (λ plan. plan ≡ product_plan m n) }
    ensures operands { IfOk result (λ plan. plan.parts ≡ m + n) }
    ensures count { IfOk result (λ plan. length plan.results ≡ m + n - 1) }
    ensures places { IfOk result IsPlan }
{
    let mut draft = Draft::new(alloc, m + n);
    let mut row = VecDeque::new(alloc);
    for left in (0..m).rev() {
        row = draft.multiply_row(alloc, left, m, n as usize, &row)?;
    }
    Ok(draft.into_plan(first_product(alloc, row)))
}

/// The first product of a row: no places where there is none.
fn first_product(alloc: Global, mut row: VecDeque<Items<u64>>) -> Items<u64>
    ensures { result ≡ slice_index_or row.items 0 [] }
{
    match row.pop_front() {
        Some(product) => product,
        None => Items::new(alloc),
    }
}

/// So many places from this one on.
fn places_from(alloc: Global, start: u64, count: u64) -> Result<Vec<u64>, AllocError>
    requires { start + count < 2 ^ 64 }
    ensures { IfOk result (λ places. places.items ≡ range_with_len start count) }
{
    let mut places = Vec::with_capacity(alloc, count as usize)?;
    for place in start..start + count {
        places.push(place)?;
    }
    Ok(places)
}
