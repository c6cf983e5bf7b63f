//! The tokens of a text: where each one stands, of what kind it is, and the first byte with which no token
//! begins.
//!
//! `lex` goes through a text once: over blanks and comments, then over the longest token that stands there, and again
//! until the text or its good part ends. `tokens` is the same for callers to whom a bad byte is an error.
//! `signed_value` and `unsigned_value` say which numbers the digits of a token write. `laws` says that no other list of
//! tokens was possible.
#![tactic(auto)]

// What stands between tokens.
mod gap;

// The parts of a token: how long each is, and what its number is.
mod lengths;
mod number;

// The longest token with which a text begins.
mod first_token;

// All tokens of a text.
mod error;
mod list;
mod packed;
mod tokenize;

// What holds of every text.
mod laws;

pub use error::LexError;
pub use ir_text::{Token, TokenKind};
pub use laws::{bad_or_tokens, one_lexing, one_token_list};
pub use list::Tokens;
pub use number::{signed_value, unsigned_value};
pub use tokenize::{lex, tokens};
