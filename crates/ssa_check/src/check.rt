//! The uses of a function, looked at.

ghost use Rattle.std.specs.Prelude.{◌≡◌, OnOk, Err};
ghost use Rattle.ir_model.specs.WellMade.{HasIds};
ghost use Rattle.flow_graph.specs.EntryWalks.{AreEntryWalksOf};
ghost use Rattle.ir_rules.specs.Uses.{Use, UsesAreDefined, IsFirstBroken};
ghost use Rattle.scev_base.specs.declared.ids.BlockId.{BlockId as Block};
ghost use Rattle.scev_base.specs.declared.ids.ValueId.{ValueId as Value};
ghost use Rattle.ssa_check.specs.declared.fault.SsaFault.TheVariants as fault;

use crate::avoiding::Avoiding;
use crate::fault::SsaFault;
use crate::reads::reads;
use crate::sizes::Sizes;
use flow_graph::EntryWalks;
use ir_model::Function;
use std::alloc::Global;

/// Whether on every walk from the entry each use of a value comes after its definition; a phi reads the operand of an
/// entry at the end of the block that the entry is from. A value that is defined more than once counts as defined at
/// its first definition in text order, a parameter at the entry.
///
/// The error is `UseBeforeDef` where some walk reaches a use and hasn't passed the definition: the value of the first
/// such use in text order, and the block of the instruction that uses it. It is `OutOfMemory` where there is no memory
/// for tables of the values and blocks, for the list of the uses, and for searches.
///
/// It takes time linear in the function's size, and for each block that defines a value used in another one at most one
/// search along the edges.
pub fn check_uses(alloc: Global, f: &Function, walks: &EntryWalks) -> Result<(), SsaFault>
    requires ids { HasIds f.now }
    requires walks { AreEntryWalksOf f.now walks.now }
    ensures accepted { OnOk result (UsesAreDefined f.now) }
    ensures refused { (value : Value) (block : Block) → result ≡ Err (fault.UseBeforeDef value block)
        → (use_ : Use) × IsFirstBroken f.now use_ × (use_.value ≡ value.0) × (use_.user ≡ block.0) }
{
    let sizes = Sizes::of(alloc, f)?;
    let reads = reads(alloc, &sizes)?;
    let mut avoiding = Avoiding::of(alloc, f, walks)?;
    for read in reads.as_slice() {
        if avoiding.is_broken(alloc, read)? {
            return Err(SsaFault::UseBeforeDef {
                value: read.value,
                block: read.spot.user,
            });
        }
    }
    Ok(())
}
