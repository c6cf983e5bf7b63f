//! What the bytes of a string mean.

ghost use Rattle.std.specs.Prelude.{◌≡◌, ◌∷◌, ◌<◌, [], IfOk, MatchOption, length};
ghost use Rattle.std.specs.Char.{digit_value};
ghost use Rattle.ir_text.specs.Written.{unescaped};

use ir_model::Text;
use sqlite_items::Items;
use std::alloc::{AllocError, Global};

/// What the bytes of a string mean: `\` and two hexadecimal digits are the byte that they write, `\\` is one `\`.
pub fn unescape(alloc: Global, text: &[u8]) -> Result<Text, AllocError>
    ensures { IfOk result (λ bytes. bytes ≡ unescaped text.now) }
{
    let mut bytes = Items::new(alloc);
    let mut rest = text;
    while let Some((byte, behind)) = first_meant(rest) {
        bytes.push(byte)?;
        rest = behind;
    }
    Ok(bytes)
}

/// The first byte that is meant, and the text behind what means it.
#[tactic(auto, unfolding(ir_text::specs::Written::unescaped))]
fn first_meant(text: &[u8]) -> Option<(u8, &[u8])>
    ensures { MatchOption result (text.now ≡ []) (λ first. (unescaped text.now ≡ first.0 ∷ unescaped first.1.now)
        × (length first.1.now < length text.now)) }
{
    match text {
        [] => None,
        [first] => Some((*first, b"".as_slice())),
        [first, second] => {
            if *first == b'\\' && *second == b'\\' {
                Some((b'\\', b"".as_slice()))
            } else {
                Some((*first, &text[1..]))
            }
        }
        [first, second, third, behind @ ..] => {
            if *first == b'\\' && *second == b'\\' {
                Some((b'\\', &text[2..]))
            } else if *first == b'\\' && second.is_ascii_hexdigit() && third.is_ascii_hexdigit() {
                Some((16 * hex_value(*second) + hex_value(*third), behind))
            } else {
                Some((*first, &text[1..]))
            }
        }
    }
}

fn hex_value(digit: u8) -> u8
    requires { digit_value digit < 16 }
    ensures value { result ≡ digit_value digit }
    ensures small { result < 16 }
{
    if digit < b':' {
        digit - b'0'
    } else if digit < b'[' {
        digit - 55
    } else {
        digit - 87
    }
}
