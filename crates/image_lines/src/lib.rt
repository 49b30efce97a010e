//! The lines of an image text, each read and written by itself.
//!
//! A line has tokens with exactly one space between, and numbers have no leading zeros. Its first token
//! says what it is: a head of the text or of a port, a part of a port, or the end. A line with a number
//! that is too large has its form all the same, and is told to be out of range.
//!
//! ```
//! let (line, in_range) = read_line(alloc, b"take 1 0")?; // Line::Take(LinkIn { slot: 1, sender: 0 }), and true
//! push_take(&mut text, &LinkIn { slot: 1, sender: 0 })?; // adds "take 1 0\n"
//! ```
#![tactic(auto)]

mod fields;
mod forms;
pub mod law;
mod line;
mod lists;
mod tokens;
mod word;
mod writing;

pub use forms::read_line;
pub use line::{Line, LineNo, PortKind, Sizes};
pub use writing::{
    push_bit, push_block, push_end, push_head, push_input, push_port, push_print, push_send,
    push_table, push_take, push_task, push_version,
};
