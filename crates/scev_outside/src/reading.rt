//! Reading a source to its end.

ghost use Rattle.std.specs.Prelude.{◌≡◌, ℕ, ◌<◌, ◌≤◌, List, [], ◌++◌, length, Option, Some, None, IfOk, IfSome, IsErrOf};
ghost use Rattle.scev_outside.specs.Bytes.{Gave};
ghost use Rattle.scev_outside.specs.Faults.{Rose};

use crate::failed::ReadError;
use crate::source::Source;
use std::alloc::Global;

/// How many bytes one read asks for.
const CHUNK: usize = 16 * 1024;

/// All bytes of the source, to its end. `Failed` comes only where its count of faults rose in this call,
/// `TooLong` exactly where it gave more than `limit` bytes. The source stands after the bytes read.
pub fn read_all<S: Source>(
    alloc: Global,
    source: &mut S,
    limit: usize,
) -> Result<Vec<u8>, ReadError>
    ensures all { IfOk result (λ bytes. IfSome (S.left source.old) (λ left. (bytes.items ≡ left) × (S.left source.new ≡ Some []))) }
    ensures short { IfOk result (λ bytes. length bytes.items ≤ limit) }
    ensures failed { IsErrOf result ReadError.Failed → Rose (S.faults source.old) (S.faults source.new) }
    ensures too_long { IsErrOf result ReadError.TooLong → IfSome (S.left source.old) (λ left. limit < length left) }
    ensures stands { (read : List ℕ) × Gave (S.left source.old) read (S.left source.new) }
    ensures count { S.faults source.old ≤ S.faults source.new }
{
    let mut chunk = [0; CHUNK];
    let mut bytes = Vec::new(alloc);
    loop {
        let count = source.read(&mut chunk)?;
        if count == 0 {
            return Ok(bytes);
        }
        if count > limit - bytes.len() {
            return Err(ReadError::TooLong);
        }
        bytes.extend_from_slice(&chunk[..count])?;
    }
}
