//! The predicates of integer comparisons.

/// One of the ten predicates of `icmp` (LLVM Language Reference, "icmp Instruction"). A first letter `U`
/// reads both sides as unsigned numbers, `S` as signed ones.
#[derive(Clone, Copy, Debug, PartialEq, Eq, PartialOrd, Ord, Hash)]
pub enum Pred {
    Eq,
    Ne,
    Ugt,
    Uge,
    Ult,
    Ule,
    Sgt,
    Sge,
    Slt,
    Sle,
}
