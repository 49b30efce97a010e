//! Lists and texts that a contract sees as a list of values and a list of bytes, whatever holds
//! them in memory, so that lists inside structs inside lists are seen whole.
//!
//! ```
//! let mut list = List::new(alloc);
//! list.push(7)?; // or `Memory`, which leaves the list as it was
//! let items = list.as_slice(); // [7], and a contract sees the same of `list`
//! let text = Text::from_bytes(alloc, b"c17")?;
//! ```
#![tactic(auto)]

mod list;
mod room;
mod text;

pub use list::List;
pub use room::Room;
use std::alloc::{AllocError, AllocFailed};
use std::fmt;
pub use text::Text;

/// Want of memory: the one refusal that a growing list or text has.
#[derive(Clone, Copy, Debug, PartialEq, Eq)]
pub struct Memory;

impl fmt::Display for Memory {
    fn fmt<W: fmt::Write>(&self, f: &mut fmt::Formatter<W>) -> fmt::Result {
        write!(f, "out of memory")
    }
}

impl std::error::Error for Memory {}

impl From<AllocError> for Memory {
    fn from(_refused: AllocError) -> Memory {
        Memory
    }
}

impl<T: Drop> From<AllocFailed<T>> for Memory {
    fn from(_refused: AllocFailed<T>) -> Memory {
        Memory
    }
}
