//! Whether each use of a value comes after its definition, on every walk from the entry.
#![tactic(auto)]

// What is refused.
mod fault;

// What a function uses, and where it defines it.
mod definitions;
mod reads;
mod sizes;

// One use, and all of them.
mod avoiding;
mod check;

// What is known of a function that is accepted.
mod assigned;
mod checked;
mod held;
mod ranks;

pub use check::check_uses;
pub use checked::{Checked, check_ssa};
pub use fault::SsaFault;
