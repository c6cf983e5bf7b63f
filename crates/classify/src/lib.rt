//! The classification: which recurrence a register is.
#![tactic(auto)]

mod definitions;
mod entries;
mod first_phis;
mod given;
mod increment;
pub mod laws;
mod names;
mod once;
mod phi;
mod places;
mod tally;
mod thin;

pub use definitions::Definitions;
pub use phi::classify_phi;
pub use thin::is_thin;
