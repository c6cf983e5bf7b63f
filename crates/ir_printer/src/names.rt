//! Text names, as they are printed.

ghost use Rattle.std.specs.Prelude.{◌≡◌, ◌++◌, ◌<◌, OnOk};
ghost use Rattle.ir_grammar.specs.Printing.{hex_digit, escaped, quoted, name_text};

use ir_text::is_word;
use std::alloc::AllocError;

/// An upper-case hexadecimal digit.
fn hex_digit(n: u8) -> u8
    requires { n < 16 }
    ensures { result ≡ hex_digit n }
{
    if n < 10 { b'0' + n } else { b'A' - 10 + n }
}

/// Appends a byte as it stands in a string: what isn't printable, `"` and `\` as `\` and two digits.
fn push_escaped(out: &mut Vec<u8>, byte: u8) -> Result<(), AllocError>
    ensures { OnOk result (out.new.items ≡ out.old.items ++ escaped byte) }
{
    if 32 <= byte && byte <= 126 && byte != b'"' && byte != b'\\' {
        out.push(byte)?;
    } else {
        out.push(b'\\')?;
        out.push(hex_digit(byte / 16))?;
        out.push(hex_digit(byte % 16))?;
    }
    Ok(())
}

/// Appends a text as a string.
#[tactic(auto, unfolding(ir_grammar::specs::Printing::quoted))]
pub fn push_quoted(out: &mut Vec<u8>, text: &[u8]) -> Result<(), AllocError>
    ensures { OnOk result (out.new.items ≡ out.old.items ++ quoted text.now) }
{
    out.push(b'"')?;
    for byte in text {
        push_escaped(out, *byte)?;
    }
    out.push(b'"')?;
    Ok(())
}

/// Appends a text name: as it is where it is a word, else as a string.
#[tactic(auto, unfolding(ir_grammar::specs::Printing::name_text))]
pub fn push_text_name(out: &mut Vec<u8>, name: &[u8]) -> Result<(), AllocError>
    ensures { OnOk result (out.new.items ≡ out.old.items ++ name_text name.now) }
{
    if is_word(name) {
        out.extend_from_slice(name)
    } else {
        push_quoted(out, name)
    }
}
