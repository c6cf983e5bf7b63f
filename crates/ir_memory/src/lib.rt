//! The memory of a program as blocks of bytes, and loads and stores in it.
#![tactic(auto)]

mod access;
mod block;
mod blocks;
mod byte;
pub mod laws;
mod loaded;
mod offset;
mod spelling;

pub use access::{Access, is_access_width};
pub use blocks::Blocks;
pub use byte::Byte;
pub use loaded::Loaded;
pub use offset::offset_of;
