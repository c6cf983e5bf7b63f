//! Worked examples of the meaning as tables of tests: memory, minima, loops of one block, and which phi is which
//! recurrence.
#![tactic(auto)]

// What rows build.
#[cfg(test)]
mod build;

// The rows.
#[cfg(test)]
mod loops;
#[cfg(test)]
mod memory;
#[cfg(test)]
mod minima;
#[cfg(test)]
mod phis;
