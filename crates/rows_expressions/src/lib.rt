//! Worked examples of expressions as tables of tests: the normal form that each is brought into, limits, and values at
//! turns of a loop.
#![tactic(auto)]

// What is formed, written.
#[cfg(test)]
mod casts;
#[cfg(test)]
mod formed;
#[cfg(test)]
mod minima;
#[cfg(test)]
mod quotients;
#[cfg(test)]
mod sums;

// What is above a limit.
#[cfg(test)]
mod limits;

// Values at turns.
#[cfg(test)]
mod bytes;
#[cfg(test)]
mod doubles;
#[cfg(test)]
mod narrow;
#[cfg(test)]
mod turns;
#[cfg(test)]
mod words;
