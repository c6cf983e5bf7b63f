//! Running out of memory ends the reading.

ghost use Rattle.std.specs.Prelude.{◌≡◌};
ghost use Rattle.ir_parts.specs.declared.fault.ItemFault.TheVariants.{OutOfMemory};

use crate::fault::ItemFault;
use std::alloc::AllocError;

impl From<AllocError> for ItemFault {
    ghost from_gives = { λ _ e. e ≡ OutOfMemory };

    fn from(_e: AllocError) -> ItemFault {
        ItemFault::OutOfMemory
    }
}
