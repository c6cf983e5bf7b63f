//! Copying the front of bytes.

ghost use Rattle.std.specs.Prelude.{◌≡◌, ◌++◌, length, take, drop, min};

/// Puts as many bytes of `from` as fit into the front of `buf`, and answers how many.
pub(crate) fn copy_front(buf: &mut [u8], from: &[u8]) -> usize
    ensures count { result ≡ min (length from.now) (length buf.old) }
    ensures filled { buf.new ≡ take result from.now ++ drop result buf.old }
{
    let count = from.len().min(buf.len());
    buf[..count].copy_from_slice(&from[..count]);
    count
}
