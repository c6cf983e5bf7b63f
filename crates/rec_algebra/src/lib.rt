//! The algebra of chains of recurrences (Bachmann, Wang, Zima 1994, Chains of Recurrences) over any
//! commutative semiring: plans of the steps that form a sum or a product, and their carrying out.
#![tactic(auto)]

mod carry;
mod draft;
mod plan;
mod plans;
mod residues;
mod ring;

pub use carry::carry_out;
pub use plan::{Plan, PlanStep};
pub use plans::{add_plan, mul_plan, scale_plan};
pub use residues::Residues;
pub use ring::Ring;
