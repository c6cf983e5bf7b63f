//! What instructions read.

use scev_base::{LoopId, ValueId};

/// A register that an instruction reads, and the innermost loop that holds the place of that, None where no loop does:
/// the place is the instruction's block, or for a phi the edge from the entry's block, which a loop holds that holds
/// both ends.
#[derive(Clone, Copy, Debug, PartialEq, Eq)]
pub struct Reading {
    pub register: ValueId,
    pub place: Option<LoopId>,
}
