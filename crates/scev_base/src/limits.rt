//! Limits of expressions and of the search for a constant count.

/// The greatest number of monomials of a polynomial.
pub const MONOMIALS: usize = 32;

/// The greatest number of factors of a monomial.
pub const FACTORS: usize = 32;

/// The greatest degree of a recurrence. One of degree k has k + 1 parts.
pub const DEGREE: usize = 8;

/// The greatest depth of an expression as a plain tree.
pub const DEPTH: usize = 64;

/// The greatest number of nodes of an expression as a plain tree.
pub const NODES: usize = 256;

/// The last turn at which the search for a constant count looks.
pub const TURNS: u64 = 4096;
