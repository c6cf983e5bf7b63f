//! Types.

ghost use Rattle.std.specs.Prelude.{◌≡◌, ◌++◌, decimal, OnOk};
ghost use Rattle.ir_grammar.specs.Printing.{elements_text, type_text};

use ir_model::IrType;
use itoa::Buffer;
use std::alloc::AllocError;

/// Appends a number in decimal digits.
pub fn push_number(out: &mut Vec<u8>, n: u64) -> Result<(), AllocError>
    ensures { OnOk result (out.new.items ≡ out.old.items ++ decimal n) }
{
    let mut buffer = Buffer::new();
    out.extend_from_slice(buffer.format(n).as_bytes())
}

/// Appends an array's type: the dimensions, outermost first, and the width of the elements.
fn push_elements(out: &mut Vec<u8>, dims: &[u64], width: u32) -> Result<(), AllocError>
    ensures { OnOk result (out.new.items ≡ out.old.items ++ elements_text dims.now width) }
{
    for dim in dims {
        out.push(b'[')?;
        push_number(out, *dim)?;
        out.extend_from_slice(b" x ")?;
    }
    out.push(b'i')?;
    push_number(out, u64::from(width))?;
    for _ in dims {
        out.push(b']')?;
    }
    Ok(())
}

/// Appends a type.
#[tactic(auto, unfolding(ir_grammar::specs::Printing::type_text))]
pub fn push_type(out: &mut Vec<u8>, kind: &IrType) -> Result<(), AllocError>
    ensures { OnOk result (out.new.items ≡ out.old.items ++ type_text kind.now) }
{
    match kind {
        IrType::Void => out.extend_from_slice(b"void"),
        IrType::Int(width) => {
            out.push(b'i')?;
            push_number(out, u64::from(*width))
        }
        IrType::Ptr => out.extend_from_slice(b"ptr"),
        IrType::Array(dims, width) => push_elements(out, dims.as_slice(), *width),
    }
}
