//! A token in 12 bytes.

ghost use Rattle.std.specs.Prelude.{◌≡◌, ◌^◌, ◌<◌, IfSome, IsSome};
ghost use Rattle.ir_lex.specs.Packed.{unpacked};

use ir_text::{Token, TokenKind};

/// A token whose places have 32 bits each, so that a list of them is half as long as one of tokens.
#[derive(Clone, Copy)]
pub(crate) struct Packed {
    from: u32,
    to: u32,
    kind: TokenKind,
}

const _: () = prove!(size_of::<Packed>() == 12);

impl Packed {
    /// The token, packed. None comes exactly where a place isn't below 2^32.
    pub(crate) fn pack(token: Token) -> Option<Self>
        ensures packed { IfSome result (λ packed. unpacked packed ≡ token) }
        ensures fits { token.from < 2 ^ 32 → token.to < 2 ^ 32 → IsSome result }
    {
        let Ok(from) = u32::try_from(token.from) else {
            return None;
        };
        let Ok(to) = u32::try_from(token.to) else {
            return None;
        };
        Some(Packed {
            from,
            to,
            kind: token.kind,
        })
    }

    /// The token that was packed.
    pub(crate) fn unpack(self) -> Token
        ensures { result ≡ unpacked self }
    {
        Token {
            kind: self.kind,
            from: self.from as usize,
            to: self.to as usize,
        }
    }
}
