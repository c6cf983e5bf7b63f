//! What every crate of `scev` speaks of: numbers of things, predicates of comparisons, widths of integers
//! and residues modulo 2^w, counters of steps, nests of loops, limits.
#![tactic(auto)]

mod ids;
pub mod laws;
pub mod limits;
mod nest;
mod pred;
mod residue;
mod steps;
mod width;

pub use ids::{BlockId, ExprId, FuncId, LoopId, ValueId};
pub use nest::LoopNest;
pub use pred::Pred;
pub use residue::{inverse_odd, sext, signed, trunc, wrap, zext};
pub use steps::Steps;
pub use width::Width;
