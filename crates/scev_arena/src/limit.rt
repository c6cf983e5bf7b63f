//! Limits of expressions.

/// The limits of `scev_base::limits` that a tree can be above, in the order in which they are looked at. A tree is
/// above one where it is, or a tree in it.
#[derive(Clone, Copy, Debug, PartialEq, Eq)]
pub enum Limit {
    /// A polynomial has more than `MONOMIALS` monomials, or one of more than `FACTORS` factors.
    TooWide,
    /// A chain of recurrences has a degree above `DEGREE`.
    TooHigh,
    /// The tree is deeper than `DEPTH` levels, or has more than `NODES` nodes.
    TooDeep,
}
