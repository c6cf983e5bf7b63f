//! Which registers and loops expressions name.
#![tactic(auto)]

mod laws;

pub use laws::{formed_names, invariant_by_names, named_values};
