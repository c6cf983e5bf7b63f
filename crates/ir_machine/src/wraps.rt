//! Where results leave the numbers of a width.

ghost use Rattle.std.specs.Prelude.{◌≡◌, ◌-◌, ◌^◌, ◌%◌, ◌<◌, pos, neg_ℤ};
ghost use Rattle.scev_base.specs.Residue.{reading};
ghost use Rattle.ir_meaning.specs.Rows.{wraps_unsigned as needs_more_bits, wraps_signed as leaves_signed};

use scev_base::Width;

/// Whether an unsigned result needs more bits than the width has.
pub(crate) fn wraps_unsigned(w: Width, n: u128) -> bool
    ensures { result ≡ needs_more_bits w.bits n }
{
    n >= 1 << w.get()
}

/// Whether a signed result isn't a signed number of the width.
pub(crate) fn wraps_signed(w: Width, z: i128) -> bool
    ensures { result ≡ leaves_signed w.bits z }
{
    z < least_signed(w) || z >= signed_end(w)
}

/// The lowest bits of a result, as many as the width has.
pub(crate) fn lowest(n: u128, w: Width) -> u64
    ensures { result ≡ n % 2 ^ w.bits }
{
    (n % (1 << w.get())) as u64
}

/// The least signed number of the width.
fn least_signed(w: Width) -> i128
    ensures { result ≡ neg_ℤ (pos (2 ^ (w.bits - 1))) }
{
    -(1 << (w.get() - 1))
}

/// One more than the greatest signed number of the width.
fn signed_end(w: Width) -> i128
    ensures { result ≡ pos (2 ^ (w.bits - 1)) }
{
    1 << (w.get() - 1)
}
