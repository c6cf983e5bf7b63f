//! The names of values and blocks as keys of tables.

/// A name: a text, or the number of what has none.
#[derive(Clone, Copy, Debug, PartialEq, Eq, Hash)]
pub enum Key<'a> {
    Text(&'a [u8]),
    Number(u128),
}
