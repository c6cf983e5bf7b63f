//! Writing bytes whole.

ghost use Rattle.std.specs.Prelude.{◌≡◌, ◌≤◌, OnOk, OnErr};
ghost use Rattle.scev_outside.specs.Bytes.{Appended, AppendedFront};
ghost use Rattle.scev_outside.specs.Faults.{Rose};

use crate::failed::Failed;
use crate::sink::Sink;

/// Appends all bytes. `Failed` comes only where the sink's count of faults rose in this call; a front of
/// the bytes is then appended. It takes no memory.
pub fn write_all<K: Sink>(sink: &mut K, bytes: &[u8]) -> Result<(), Failed>
    ensures whole { OnOk result (Appended (K.taken sink.old) bytes.now (K.taken sink.new)) }
    ensures front { OnErr result (AppendedFront (K.taken sink.old) bytes.now (K.taken sink.new)) }
    ensures failed { OnErr result (Rose (K.faults sink.old) (K.faults sink.new)) }
    ensures count { K.faults sink.old ≤ K.faults sink.new }
{
    let mut written = 0;
    while written < bytes.len() {
        written += sink.write(&bytes[written..])?;
    }
    Ok(())
}
