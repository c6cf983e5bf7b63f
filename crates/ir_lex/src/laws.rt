//! What the lexical grammar itself guarantees. Each function is a law, which does nothing.

ghost use Rattle.std.specs.Prelude.{◌≡◌, ℕ, List};
ghost use Rattle.ir_text.specs.Tokens.{Lexeme, Placed, Lexed, AreLexemes, IsFirstBad};

/// A text that begins at one place has one list of tokens, and one place where they end.
pub fn one_lexing()
    ensures { (at : ℕ) (bytes : List ℕ) (a b : List Placed) (end other_end : ℕ)
        → Lexed at bytes a end → Lexed at bytes b other_end → (a ≡ b) × (end ≡ other_end) }
{}

/// A text has at most one list of tokens.
pub fn one_token_list()
    ensures { (bytes : List ℕ) (a b : List Lexeme) → AreLexemes bytes a → AreLexemes bytes b → a ≡ b }
{}

/// A text with a bad byte has no list of tokens.
pub fn bad_or_tokens()
    ensures { (bytes : List ℕ) (at : ℕ) (ts : List Lexeme) → IsFirstBad bytes at → AreLexemes bytes ts → ⊥ }
{}
