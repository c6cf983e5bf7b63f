//! What is known of a global that was read.

use ir_model::{IrType, Text};
use ir_parts::{Ending, Run};
use sqlite_items::Items;

/// How a global ends, which tells what could still go on with it: a comma always could.
#[derive(Clone, Copy, Debug, PartialEq, Eq)]
pub enum GlobalEnding {
    /// With its type, its initialiser, or attachments: nothing else could follow.
    Whole,
    /// With a comma and a run of words that ends so: what goes on with the run could follow, and the kind of
    /// an attachment where the run is empty.
    Words(Ending),
}

/// What stands behind the name of a global and its `=`, up to its type.
#[derive(Drop)]
pub(crate) struct Typed {
    pub run: Run,
    pub before: Text,
    pub constant: bool,
    pub kind: IrType,
}

/// What stands behind the initialiser of a global: runs of words, each behind a comma, and attachments.
#[derive(Drop)]
pub(crate) struct Tail {
    pub after: Items<Text>,
    pub ending: GlobalEnding,
}
