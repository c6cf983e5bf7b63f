//! Operations with their passed-on words.

use ir_model::{Op, Text};
use sqlite_items::Items;

/// What an instruction does, and one text for each place of its form where passed-on words may stand.
#[derive(Drop)]
pub struct Operation {
    pub op: Op,
    pub words: Items<Text>,
}
