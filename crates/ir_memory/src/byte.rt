//! One byte of memory.

ghost use Rattle.std.specs.Prelude.{◌≡◌};

/// A byte of memory.
#[derive(Clone, Copy, Debug, PartialEq, Eq)]
pub enum Byte {
    /// Eight bits, as a number.
    Number(u8),
    /// Poison was stored here.
    Poison,
    /// Nothing was stored here.
    Unwritten,
}

impl Byte {
    ghost use Rattle.ir_memory.specs.Spelling.{is_poison, is_unwritten, number_of};

    /// Whether it is poison.
    pub(crate) fn is_poison(self) -> bool
        ensures { result ≡ is_poison self }
    {
        matches!(self, Byte::Poison)
    }

    /// Whether nothing was stored here.
    pub(crate) fn is_unwritten(self) -> bool
        ensures { result ≡ is_unwritten self }
    {
        matches!(self, Byte::Unwritten)
    }

    /// Its number, and 0 where it holds none.
    pub(crate) fn number(self) -> u8
        ensures { result ≡ number_of self }
    {
        match self {
            Byte::Number(number) => number,
            Byte::Poison | Byte::Unwritten => 0,
        }
    }
}
