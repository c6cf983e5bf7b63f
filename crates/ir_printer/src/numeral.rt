//! Numerals by their signed readings.

ghost use Rattle.std.specs.Prelude.{◌≡◌, ◌<◌, ◌≤◌, ◌^◌, ◌++◌, OnOk};
ghost use Rattle.std.specs.Fmt.{signed_decimal};
ghost use Rattle.scev_base.specs.Residue.{residue, reading};
ghost use Rattle.ir_grammar.specs.Printing.{number_text};

use ir_model::IrType;
use itoa::Buffer;
use std::alloc::AllocError;

/// 2^w.
fn modulus(width: u32) -> u128
    requires { width < 128 }
    ensures value { result ≡ 2 ^ width }
    ensures bound { result ≤ 2 ^ 127 }
{
    1 << width
}

/// The residue of `n` modulo 2^w.
fn residue(n: i128, width: u32) -> u128
    requires { width < 128 }
    ensures value { result ≡ residue width n }
    ensures below { result < 2 ^ width }
{
    n.cast_unsigned() % modulus(width)
}

/// The signed reading of `n` modulo 2^w: from -2^(w-1) to 2^(w-1) - 1. At 128 bits and more it is `n`.
fn signed_reading(n: i128, width: u32) -> i128
    ensures { result ≡ reading width (residue width n) }
{
    if width >= 128 {
        return n;
    }
    let residue = residue(n, width);
    let rest = modulus(width) - residue;
    if residue < rest {
        residue as i128
    } else {
        -(rest as i128)
    }
}

/// Appends a number.
fn push_signed(out: &mut Vec<u8>, n: i128) -> Result<(), AllocError>
    ensures { OnOk result (out.new.items ≡ out.old.items ++ signed_decimal n) }
{
    let mut buffer = Buffer::new();
    out.extend_from_slice(buffer.format(n).as_bytes())
}

/// Appends a numeral of a type by its signed reading; `true` and `false` at one bit.
pub fn push_numeral(out: &mut Vec<u8>, kind: &IrType, n: i128) -> Result<(), AllocError>
    ensures { OnOk result (out.new.items ≡ out.old.items ++ number_text kind.now n) }
{
    match kind {
        IrType::Int(1) => {
            if n.rem_euclid(2) == 1 {
                out.extend_from_slice(b"true")
            } else {
                out.extend_from_slice(b"false")
            }
        }
        IrType::Int(width) => push_signed(out, signed_reading(n, *width)),
        IrType::Void | IrType::Ptr | IrType::Array(_, _) => push_signed(out, n),
    }
}
