//! The carrying out of plans.

ghost use Rattle.std.specs.Prelude.{◌≡◌, ℕ, ◌+◌, List, All, length, take, drop, IfOk};
ghost use Rattle.rec_algebra.specs.Plans.{IsStepBelow, carried, place_items, step_item};
ghost use Rattle.rec_algebra.specs.Forming.{sum_plan, multiple_plan, product_plan};
ghost use Rattle.rec_algebra.specs.Values.{HasValue};

use crate::plan::{Plan, PlanStep};
use crate::ring::Ring;
use std::alloc::{AllocError, Global};

/// Carries the plan out over the parts of its operands, the first operand's first, and gives the parts of
/// its result. The parts are admitted by the ring, and as many as the plan has of its operands. At each turn
/// the result of the plan of a sum has the sum of the operands' values, and that of the plan of a multiple or
/// of a product has their product. It fails only where no memory is found.
pub fn carry_out<R: Ring>(
    alloc: Global,
    r: &R,
    plan: &Plan,
    parts: &[R::Item],
) -> Result<Vec<R::Item>, AllocError>
    requires count { length parts.now ≡ plan.now.parts }
    requires admitted { All (R.admits r.now) parts.now }
    ensures count { IfOk result (λ items. length items.items ≡ length plan.now.results) }
    ensures items { IfOk result (λ items. (default : R.Item)
        → items.items ≡ carried (R.plus r.now) (R.times r.now) default plan.now parts.now) }
    ensures admitted { IfOk result (λ items. All (R.admits r.now) items.items) }
    ensures sum { IfOk result (λ items. (m n turn : ℕ) (left right : R.Item)
        → plan.now ≡ sum_plan m n
        → HasValue (R.plus r.now) turn (take m parts.now) left
        → HasValue (R.plus r.now) turn (drop m parts.now) right
        → HasValue (R.plus r.now) turn items.items (R.plus r.now left right)) }
    ensures multiple { IfOk result (λ items. (n turn : ℕ) (left right : R.Item)
        → plan.now ≡ multiple_plan n
        → HasValue (R.plus r.now) turn (take 1 parts.now) left
        → HasValue (R.plus r.now) turn (drop 1 parts.now) right
        → HasValue (R.plus r.now) turn items.items (R.times r.now left right)) }
    ensures product { IfOk result (λ items. (m n turn : ℕ) (left right : R.Item)
        → plan.now ≡ product_plan m n
        → HasValue (R.plus r.now) turn (take m parts.now) left
        → HasValue (R.plus r.now) turn (drop m parts.now) right
        → HasValue (R.plus r.now) turn items.items (R.times r.now left right)) }
{
    let items = all_items(alloc, r, plan, parts)?;
    let places = plan.result();
    let mut results = Vec::with_capacity(alloc, places.len())?;
    for place in places {
        results.push(items[*place as usize])?;
    }
    Ok(results)
}

/// The items of all places of the plan.
fn all_items<R: Ring>(
    alloc: Global,
    r: &R,
    plan: &Plan,
    parts: &[R::Item],
) -> Result<Vec<R::Item>, AllocError>
    requires count { length parts.now ≡ plan.now.parts }
    requires admitted { All (R.admits r.now) parts.now }
    ensures count { IfOk result (λ items. length items.items
        ≡ plan.now.parts + length plan.now.steps) }
    ensures items { IfOk result (λ items. (default : R.Item)
        → items.items ≡ place_items (R.plus r.now) (R.times r.now) default parts.now plan.now.steps) }
    ensures admitted { IfOk result (λ items. All (R.admits r.now) items.items) }
{
    let mut items = Vec::from_slice(alloc, parts)?;
    for step in plan.steps() {
        let item = perform(r, &items, *step);
        items.push(item)?;
    }
    Ok(items)
}

/// The item that the step forms of the items of the places so far.
fn perform<R: Ring>(r: &R, items: &[R::Item], step: PlanStep) -> R::Item
    requires places { IsStepBelow (length items.now) step }
    requires admitted { All (R.admits r.now) items.now }
    ensures item { (default : R.Item)
        → result ≡ step_item (R.plus r.now) (R.times r.now) default items.now step }
    ensures admitted { R.admits r.now result }
{
    match step {
        PlanStep::Add(left, right) => r.add(items[left as usize], items[right as usize]),
        PlanStep::Mul(left, right) => r.mul(items[left as usize], items[right as usize]),
    }
}
