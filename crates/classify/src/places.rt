//! The places of the instructions that give registers their results.

ghost use Rattle.std.specs.Prelude.{◌≡◌, length, IfOk};
ghost use Rattle.classify.specs.Places.{placed, ArePlaced, ArePlaces};

use ir_model::{Function, Instr};
use scev_base::ValueId;
use sqlite_items::Items;
use std::alloc::{AllocError, Global};

/// For each register of the function's table the place of an instruction that gives it, None where there is none.
pub(crate) fn result_places(
    alloc: Global,
    f: &Function,
) -> Result<Items<Option<(u64, u64)>>, AllocError>
    ensures count { IfOk result (λ places. length places ≡ length f.now.values) }
    ensures exact { IfOk result (λ places. ArePlaces f.now.blocks places) }
{
    let mut places = vec![in alloc; None; f.values.len()]?;
    for (at, block) in f.blocks.as_slice().iter().enumerate() {
        place_results(at as u64, block.instrs.as_slice(), places.as_mut_slice());
    }
    Ok(Items::from_vec(places))
}

/// Notes the place of each instruction of a block at the register that it gives.
fn place_results(block: u64, instrs: &[Instr], places: &mut [Option<(u64, u64)>])
    ensures { ArePlaced block instrs.now places.old places.new }
{
    for (at, instr) in instrs.iter().enumerate() {
        place_result(instr.result, (block, at as u64), places);
    }
}

/// Notes the place of an instruction at the register that it gives. A register that isn't of the table changes
/// nothing.
fn place_result(given: Option<ValueId>, place: (u64, u64), places: &mut [Option<(u64, u64)>])
    ensures { places.new ≡ placed places.old given place }
{
    let Some(value) = given else { return };
    let at = value.0 as usize;
    if at < places.len() {
        places[at] = Some(place);
    }
}
