//! Where a part of an object stands.

ghost use Rattle.std.specs.Prelude.{◌≡◌};
ghost use Rattle.ir_memory.specs.Offset.{offset_from};

/// The base plus the sum of each part's index times its size, modulo 2^64. A part is a pair of an index
/// and a size.
pub fn offset_of(base: u64, parts: &[(u64, u64)]) -> u64
    ensures { result ≡ offset_from base parts.now }
{
    let mut offset = base;
    for (index, size) in parts {
        offset = offset.wrapping_add(index.wrapping_mul(*size));
    }
    offset
}
