//! Blanks and comments.

ghost use Rattle.std.specs.Prelude.{◌≡◌, ◌≤◌, false, length};
ghost use Rattle.ir_lex.specs.Gap.{gap_len};

use ir_text::is_blank;

/// How many bytes at the start are blanks and comments. A comment that no line feed ends goes on to the end.
pub(crate) fn gap_len(bytes: &[u8]) -> usize
    ensures value { result ≡ gap_len false bytes.now }
    ensures within { result ≤ length bytes.now }
{
    let mut commented = false;
    for (at, byte) in bytes.iter().enumerate() {
        if commented {
            commented = *byte != b'\n';
        } else if *byte == b';' {
            commented = true;
        } else if !is_blank(*byte) {
            return at;
        }
    }
    bytes.len()
}
