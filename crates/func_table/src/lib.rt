//! The answers of a gate of up to four operands as a table that is looked up, and a shelf on which
//! equal tables share a number.
//!
//! ```
//! let table = table_of(Kind::Nand, 2); // NAND of the first two operands
//! let value = table.eval(V4::Zero, V4::Undef, V4::Zero, V4::Zero); // V4::One: a 0 decides
//! let number = shelf.intern(table)?; // 0 on an empty shelf, and each time an equal table comes
//! ```
#![tactic(auto)]

mod shelf;
mod table;

pub use shelf::Shelf;
pub use table::{Table, entries_decide, table_of};
