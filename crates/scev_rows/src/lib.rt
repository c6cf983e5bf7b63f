//! Worked examples as tables of tests: whole inputs over `run`.
#![tactic(auto)]

#[cfg(test)]
mod bodies;
#[cfg(test)]
mod call;
#[cfg(test)]
mod clang;
#[cfg(test)]
mod eval;
#[cfg(test)]
mod examples;
#[cfg(test)]
mod faults;
#[cfg(test)]
mod items;
#[cfg(test)]
mod print;
#[cfg(test)]
mod refused;
#[cfg(test)]
mod report;
#[cfg(test)]
mod rules;
#[cfg(test)]
mod tokens;
