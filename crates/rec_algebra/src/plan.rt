//! Plans of steps.

ghost use Rattle.std.specs.Prelude.{◌≡◌, slice_get};
ghost use Rattle.rec_algebra.specs.Plans.{IsPlan};

use sqlite_items::Items;
use std::marker::Model;

/// One step of a plan. It names two earlier places.
#[derive(Clone, Copy, Debug, PartialEq, Eq)]
pub enum PlanStep {
    /// The sum of the items of two places.
    Add(u64, u64),
    /// The product of the items of two places.
    Mul(u64, u64),
}

/// The steps by which a sum or a product of recurrences is formed, whatever their parts are. The places
/// begin with the operands' parts, the first operand's first. Each step's result takes the next place. Each
/// step names earlier places alone, and each place of the result is one of the plan's.
///
/// Contracts see how many parts the operands have together, the steps, and the places of the result's parts.
#[derive(Debug, Drop)]
pub struct Plan {
    parts: u64,
    steps: Items<PlanStep>,
    results: Items<u64>,
}

impl Model for Plan {
    ghost use Rattle.rec_algebra.specs.Plans.{Plan, IsPlan};

    ghost Value = { Plan };

    ghost view = { λ p. record { parts = p.parts; steps = p.steps; results = p.results } };

    ghost invariant = { λ p. IsPlan (record { parts = p.parts; steps = p.steps; results = p.results }) };
}

impl Plan {
    /// The plan of these steps over so many parts, whose result has these places.
    pub(crate) fn new(parts: u64, steps: Items<PlanStep>, results: Items<u64>) -> Plan
        requires { IsPlan (record { parts = parts; steps = steps; results = results }) }
        ensures { result ≡ record { parts = parts; steps = steps; results = results } }
    {
        Plan {
            parts,
            steps,
            results,
        }
    }

    /// How many parts the operands have together.
    pub fn parts(&self) -> u64
        ensures parts { result ≡ self.now.parts }
        ensures plan { IsPlan self.now }
    {
        self.parts
    }

    /// The steps, in order.
    pub fn steps(&self) -> &[PlanStep]
        ensures steps { result.now ≡ self.now.steps }
        ensures plan { IsPlan self.now }
    {
        self.steps.as_slice()
    }

    /// The step at this position. It is None exactly past the last one.
    pub fn step(&self, i: usize) -> Option<PlanStep>
        ensures step { result ≡ slice_get self.now.steps i }
        ensures plan { IsPlan self.now }
    {
        self.steps.get(i).copied()
    }

    /// The places of the result's parts, in order.
    pub fn result(&self) -> &[u64]
        ensures results { result.now ≡ self.now.results }
        ensures plan { IsPlan self.now }
    {
        self.results.as_slice()
    }
}
