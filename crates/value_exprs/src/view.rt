//! Views of functions.

use scev_base::{LoopId, LoopNest, ValueId};
use sqlite_items::Items;
use std::marker::Model;
use value_view::{Reading, Row};

/// What the classification asks of a function: for each value its row, what it reads, and whether it is a phi in the
/// header of a loop with one operand from outside and one on all back edges, of any type; for each block the innermost
/// loop; the nest of loops; and for each loop the one around it, as the nest has it, and the registers that the
/// conditions of its exits read.
#[derive(Drop)]
pub struct FunctionView {
    pub rows: Items<Row>,
    pub reads: Items<Items<Reading>>,
    pub turns: Items<bool>,
    pub innermost: Items<Option<LoopId>>,
    pub nest: LoopNest,
    pub around: Items<Option<u64>>,
    pub conditions: Items<Items<ValueId>>,
}

impl Model for FunctionView {
    ghost use Rattle.std.specs.Prelude.{◌≡◌};
    ghost use Rattle.value_exprs.specs.View.{View};

    ghost Value = { View };

    ghost view = { λ view. record {
      rows = view.rows;
      reads = view.reads;
      turns = view.turns;
      innermost = view.innermost;
      parents = view.nest;
      conditions = view.conditions;
    } };

    ghost invariant = { λ view. view.around ≡ view.nest };
}
