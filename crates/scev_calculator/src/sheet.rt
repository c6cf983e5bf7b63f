//! The function whose registers and blocks name those of texts.

ghost use Rattle.std.specs.Prelude.{IfOk};
ghost use Rattle.ir_model.specs.WellMade.{HasIds};

use ir_model::{Function, IrType, Text, ValueInfo};
use sqlite_items::Items;
use std::alloc::{AllocError, Global};

/// The names of the registers, in the order of their numbers.
const NAMES: &[u8] = b"abcdefghijklmnopqrstuvwxyz";

/// A function without blocks, whose registers are `%a`, `%b` and so on up to `%z`, and whose only label is `%l`.
#[tactic(auto, unfolding(ir_model::specs::WellMade::HasIds))]
pub(crate) fn sheet(alloc: Global) -> Result<Function, AllocError>
    ensures { IfOk result HasIds }
{
    let label: Text = Items::from_slice(alloc, b"l")?;
    let mut labels = Items::new(alloc);
    labels.push(Some(label))?;
    let values = registers(alloc)?;
    Ok(Function {
        name: Items::new(alloc),
        words: Items::new(alloc),
        ret: IrType::Void,
        params: Items::new(alloc),
        blocks: Items::new(alloc),
        values,
        labels,
    })
}

/// A register for each name.
fn registers(alloc: Global) -> Result<Items<ValueInfo>, AllocError> {
    let mut values = Items::new(alloc);
    for i in 0..NAMES.len() {
        values.push(ValueInfo {
            name: Some(Items::from_slice(alloc, &NAMES[i..=i])?),
            kind: IrType::Void,
        })?;
    }
    Ok(values)
}
