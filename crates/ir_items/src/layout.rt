//! What a data layout has that is left out.

ghost use Rattle.std.specs.Prelude.{◌≡◌, ◌==◌, ℕ, MatchOption, position};
ghost use Rattle.ir_grammar.specs.Layout.{IsLayoutFault};
ghost use Rattle.ir_items.specs.LayoutScan.{first_part, is_sixty_four, is_other_size, is_colon_size, is_default_size, is_other_pointer, left_out};

use ir_parts::{are_digits, small_number};

/// The first specification of a data layout that is left out: its number, which is 4 for `E` and 5 for pointers of
/// another size than 64 bits, and the place of its first byte from 0.
///
/// The text is what stands between the quotes. `None` comes exactly where nothing is left out. Linear time; no memory
/// is taken.
pub fn layout_fault(text: &[u8]) -> Option<(u16, usize)>
    ensures { MatchOption result ((word at : ℕ) → IsLayoutFault text.now word at → ⊥)
        (λ fault. IsLayoutFault text.now fault.0 fault.1) }
{
    let mut from = 0;
    'specifications: loop {
        let spec = first_part(&text[from..], b'-');
        if let Some(word) = left_out(spec) {
            return Some((word, from));
        }
        let end = from + spec.len();
        if end >= text.len() {
            return None;
        }
        from = end + 1;
    }
}

/// What stands before the first such byte.
fn first_part(text: &[u8], separator: u8) -> &[u8]
    ensures { result.now ≡ first_part separator text.now }
{
    match first_place(text, separator) {
        Some(length) => &text[..length],
        None => text,
    }
}

fn first_place(text: &[u8], separator: u8) -> Option<usize>
    ensures { result ≡ position (λ b. b == separator) text.now }
{
    text.iter().position(|byte| *byte == separator)
}

/// The number under which a specification is left out.
fn left_out(spec: &[u8]) -> Option<u16>
    ensures { result ≡ left_out spec.now }
{
    if spec == b"E".as_slice() {
        Some(4)
    } else if is_other_pointer(spec) {
        Some(5)
    } else {
        None
    }
}

#[tactic(auto, unfolding(crate::specs::LayoutScan::is_other_pointer))]
fn is_other_pointer(spec: &[u8]) -> bool
    ensures { result ≡ is_other_pointer spec.now }
{
    match spec {
        [b'p', rest @ ..] => is_default_size(rest),
        _ => false,
    }
}

#[tactic(auto, unfolding(crate::specs::LayoutScan::is_default_size))]
fn is_default_size(text: &[u8]) -> bool
    ensures { result ≡ is_default_size text.now }
{
    match text {
        [b'0', rest @ ..] => is_colon_size(rest),
        [_, ..] => is_colon_size(text),
        [] => false,
    }
}

#[tactic(auto, unfolding(crate::specs::LayoutScan::is_colon_size))]
fn is_colon_size(text: &[u8]) -> bool
    ensures { result ≡ is_colon_size text.now }
{
    match text {
        [b':', rest @ ..] => is_other_size(rest),
        _ => false,
    }
}

fn is_other_size(text: &[u8]) -> bool
    ensures { result ≡ is_other_size text.now }
{
    !is_sixty_four(first_part(text, b':'))
}

fn is_sixty_four(size: &[u8]) -> bool
    ensures { result ≡ is_sixty_four size.now }
{
    0 < size.len() && are_digits(size) && small_number(size) == Some(64)
}
