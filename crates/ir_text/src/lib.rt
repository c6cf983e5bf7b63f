//! What a text says: its tokens, the modules that it spells, and the text that is printed for a module.
//! Nearly all of it is definitions, in `specs`; the reader, the lexer and the printer are proved against
//! them. What they have in common stands here as code.
#![tactic(auto)]

mod bytes;
mod names;
mod token;

pub use bytes::{begins_word, goes_on_word, is_blank, is_digit, is_sign};
pub use names::is_word;
pub use token::{Token, TokenKind};
