//! The printed text of a module reads back: it spells the same module, with each numeral as it is printed. A module
//! that a text spells is well made.
#![tactic(auto)]

mod laws;

pub use laws::{reads_back, spelled_is_well_made};
