//! Worked examples of the arithmetic as tables of tests: residues and nests of loops, binomials, congruences,
//! recurrences, polynomials, and places of expressions.
#![tactic(auto)]

// Numbers modulo 2^w.
#[cfg(test)]
mod binomials;
#[cfg(test)]
mod congruences;
#[cfg(test)]
mod halving;
#[cfg(test)]
mod residues;

// What is made of them.
#[cfg(test)]
mod nests;
#[cfg(test)]
mod plans;
#[cfg(test)]
mod polynomials;

// Where expressions are kept.
#[cfg(test)]
mod places;
