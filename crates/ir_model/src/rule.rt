//! The rules of well-formedness by their names, and the places where they are broken.

use scev_base::{BlockId, ValueId};

/// A rule of well-formedness, in the order in which they are looked at.
#[derive(Clone, Copy, Debug, PartialEq, Eq)]
pub enum Rule {
    /// A name is defined twice.
    DuplicateName,
    /// A value, a label or a global is used and not defined.
    UndefinedName,
    /// An operand, a literal or an initialiser isn't of the type of its place.
    TypeMismatch,
    /// A numeral isn't in -2^(w-1) to 2^w - 1.
    LiteralOutOfRange,
    /// A width outside 1 to 64, or one that the place doesn't allow.
    BadWidth,
    /// The first block is a target.
    EntryHasPredecessor,
    /// A phi stands after another instruction.
    PhiNotFirst,
    /// A phi's entries aren't those of its block's incoming edges.
    PhiEntries,
    /// A void call has a result, or a value is void.
    VoidValue,
    /// A switch has a case twice.
    DuplicateCase,
    /// A comparison of pointers by another predicate than `eq` and `ne`, or a freeze of a pointer.
    PointerPredicate,
    /// A callee isn't a function of the module, or its types differ.
    CallMismatch,
    /// `ret` doesn't give the function's type.
    ReturnType,
    /// A limit of size is passed.
    Limit,
    /// A use can be reached without its definition.
    UseBeforeDef,
}

/// Where a rule is broken: at the instruction that gives a value, at a block, at the use of a value by an
/// instruction of a block, or at an item of the module, from 0.
#[derive(Clone, Copy, Debug, PartialEq, Eq)]
pub enum Place {
    Value(ValueId),
    BlockAt(BlockId),
    UseIn(ValueId, BlockId),
    Item(u64),
}
