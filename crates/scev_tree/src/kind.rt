//! Kinds of atoms.

use scev_base::{LoopId, ValueId};

/// What an atom is made from its parts, in the order in which atoms of an expression stand.
#[derive(Clone, Copy, Debug, PartialEq, Eq, Hash)]
pub enum Kind {
    /// The lowest bits of one part, which is wider.
    Trunc,
    /// The number of one part, which is narrower, read as unsigned.
    Zext,
    /// The number of one part, which is narrower, read as signed.
    Sext,
    /// The unsigned quotient of two parts, rounded down.
    Udiv,
    /// The greatest of two or more parts, read as signed.
    Smax,
    /// The greatest of two or more parts, read as unsigned.
    Umax,
    /// The least of two or more parts, read as signed.
    Smin,
    /// The least of two or more parts, read as unsigned.
    Umin,
    /// The least of two or more parts, read as unsigned, up to the first one that is 0: those behind it don't count,
    /// whether they have a value or not.
    Seq,
    /// The chain of recurrences of a loop, of two or more parts (Bachmann, Wang, Zima 1994).
    Rec(LoopId),
    /// A register, and the innermost loop that it is defined in, if any. It has no parts.
    Leaf(ValueId, Option<LoopId>),
}
