//! Plans in the making.

ghost use Rattle.std.specs.Prelude.{◌≡◌, ◌+◌, ◌^◌, ◌<◌, max, [], ◌∷◌, ◌++◌, length, slice_get, slice_index_or};
ghost use Rattle.std.specs.Prelude.{IfOk, OnOk};
ghost use Rattle.std.specs.List.{range_with_len};
ghost use Rattle.rec_algebra.specs.Plans.{IsPlan};
ghost use Rattle.rec_algebra.specs.Forming.{joined, joined_three, with_place, summed, multiplied, product_row};

use crate::plan::{Plan, PlanStep};
use sqlite_items::Items;
use std::alloc::{AllocError, Global};
use std::collections::VecDeque;

/// The steps so far of a plan over so many parts of operands.
#[derive(Debug, Drop)]
pub(crate) struct Draft {
    pub(crate) parts: u64,
    pub(crate) steps: Vec<PlanStep>,
    // A `Vec` has fewer than 2^63 items, so each place of a step is a u64.
    ghost few: { parts < 2 ^ 63 },
}

impl Draft {
    /// No steps yet.
    pub(crate) fn new(alloc: Global, parts: u64) -> Draft
        requires { parts < 2 ^ 63 }
        ensures parts { result.parts ≡ parts }
        ensures steps { result.steps.items ≡ [] }
    {
        Draft {
            parts,
            steps: Vec::new(alloc),
        }
    }

    /// The plan of these steps whose result has these places.
    pub(crate) fn into_plan(self, results: Items<u64>) -> Plan
        requires { IsPlan (record { parts = self.parts; steps = self.steps.items; results = results }) }
        ensures { result ≡ record { parts = self.parts; steps = self.steps.items; results = results } }
    {
        let Draft { parts, steps } = self;
        Plan::new(parts, Items::from_vec(steps), results)
    }

    /// Adds a last step, and answers its place.
    pub(crate) fn add(&mut self, step: PlanStep) -> Result<u64, AllocError>
        ensures parts { self.new.parts ≡ self.old.parts }
        ensures place { IfOk result (λ place. place ≡ self.old.parts + length self.old.steps.items) }
        ensures steps { OnOk result (self.new.steps.items ≡ self.old.steps.items ++ step ∷ []) }
    {
        let place = self.parts + self.steps.len() as u64;
        self.steps.push(step)?;
        Ok(place)
    }

    /// The place of the sum of two places, either of which may be missing. A step is made where both are
    /// there.
    fn join(&mut self, left: Option<u64>, right: Option<u64>) -> Result<Option<u64>, AllocError>
        ensures parts { self.new.parts ≡ self.old.parts }
        ensures place { IfOk result (λ place. place
            ≡ (joined self.old.parts self.old.steps.items left right).place) }
        ensures steps { OnOk result (self.new.steps.items
            ≡ (joined self.old.parts self.old.steps.items left right).steps) }
    {
        match (left, right) {
            (Some(left), Some(right)) => Ok(Some(self.add(PlanStep::Add(left, right))?)),
            (Some(left), None) => Ok(Some(left)),
            (None, right) => Ok(right),
        }
    }

    /// The place of the sum of three places, added from the left.
    fn join_three(
        &mut self,
        first: Option<u64>,
        second: Option<u64>,
        third: Option<u64>,
    ) -> Result<Option<u64>, AllocError>
        ensures parts { self.new.parts ≡ self.old.parts }
        ensures place { IfOk result (λ place. place
            ≡ (joined_three self.old.parts self.old.steps.items first second third).place) }
        ensures steps { OnOk result (self.new.steps.items
            ≡ (joined_three self.old.parts self.old.steps.items first second third).steps) }
    {
        let two = self.join(first, second)?;
        self.join(two, third)
    }

    /// Adds three lists of places part by part, each part from the left, to the end of `places`.
    pub(crate) fn sum(
        &mut self,
        places: &mut Vec<u64>,
        first: &[u64],
        second: &[u64],
        third: &[u64],
    ) -> Result<(), AllocError>
        ensures parts { self.new.parts ≡ self.old.parts }
        ensures places { OnOk result (places.new.items
            ≡ (summed self.old.parts (record { steps = self.old.steps.items; places = places.old.items })
            (max (max (length first.now) (length second.now)) (length third.now))
            first.now second.now third.now).places) }
        ensures steps { OnOk result (self.new.steps.items
            ≡ (summed self.old.parts (record { steps = self.old.steps.items; places = places.old.items })
            (max (max (length first.now) (length second.now)) (length third.now))
            first.now second.now third.now).steps) }
    {
        let count = first.len().max(second.len()).max(third.len());
        for i in 0..count {
            let part = self.join_three(
                place_at(first, i),
                place_at(second, i),
                place_at(third, i),
            )?;
            push_if_there(places, part)?;
        }
        Ok(())
    }

    /// The product of the suffixes that start at `left` and `right`, over the terms of its step.
    fn multiply(
        &mut self,
        alloc: Global,
        left: u64,
        right: u64,
        first: &[u64],
        second: &[u64],
        third: &[u64],
    ) -> Result<Items<u64>, AllocError>
        ensures parts { self.new.parts ≡ self.old.parts }
        ensures places { IfOk result (λ places. places
            ≡ (multiplied self.old.parts self.old.steps.items left right first.now second.now third.now).places) }
        ensures steps { OnOk result (self.new.steps.items
            ≡ (multiplied self.old.parts self.old.steps.items left right first.now second.now third.now).steps) }
    {
        let mut places = Vec::new(alloc);
        places.push(self.add(PlanStep::Mul(left, right))?)?;
        self.sum(&mut places, first, second, third)?;
        Ok(Items::from_vec(places))
    }

    /// The products of the suffix that starts at `left` with each suffix of the `count` places from `start`
    /// on, that of all of them first. `below` has the products of the suffix without its first part.
    pub(crate) fn multiply_row(
        &mut self,
        alloc: Global,
        left: u64,
        start: u64,
        count: usize,
        below: &VecDeque<Items<u64>>,
    ) -> Result<VecDeque<Items<u64>>, AllocError>
        requires { start + count < 2 ^ 64 }
        ensures parts { self.new.parts ≡ self.old.parts }
        ensures products { IfOk result (λ row. row.items
            ≡ (product_row self.old.parts self.old.steps.items left (range_with_len start count)
            below.now.items).products) }
        ensures steps { OnOk result (self.new.steps.items
            ≡ (product_row self.old.parts self.old.steps.items left (range_with_len start count)
            below.now.items).steps) }
    {
        let mut row = VecDeque::new(alloc);
        for j in (0..count).rev() {
            let product = self.multiply(
                alloc,
                left,
                start + j as u64,
                product_at(&row, 0),
                product_at(below, j),
                product_at(below, j + 1),
            )?;
            row.push_front(product)?;
        }
        Ok(row)
    }
}

/// The place at this position, if there is one.
fn place_at(places: &[u64], at: usize) -> Option<u64>
    ensures { result ≡ slice_get places.now at }
{
    places.get(at).copied()
}

/// Adds the place to the end, if it is there.
fn push_if_there(places: &mut Vec<u64>, place: Option<u64>) -> Result<(), AllocError>
    ensures { OnOk result (places.new.items ≡ with_place places.old.items place) }
{
    match place {
        Some(place) => Ok(places.push(place)?),
        None => Ok(()),
    }
}

/// The product at this position of a row: no places past its end.
fn product_at(row: &VecDeque<Items<u64>>, at: usize) -> &[u64]
    ensures { result.now ≡ slice_index_or row.now.items at [] }
{
    match row.get(at) {
        Some(product) => product.as_slice(),
        None => &[],
    }
}
