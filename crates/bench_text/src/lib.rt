//! The tokens of a netlist text in the ISCAS'89 `.bench` format, and the form that the marks and names of a line
//! spell.
//!
//! A token is one of the bytes `(` `)` `,` `=` `;` `[` `]`, or a name: a longest run of the bytes
//! 0x21 to 0x7E other than these and `#`. Blanks and line ends may stand between tokens; no line needs
//! any. `#` begins a comment that goes on to the end of its line, with any bytes
//! in it. Square brackets and semicolons are this project's profile, for memories.
//!
//! What stands in a line of such a text: its marks and names, and the form that they spell.
//!
//! ```
//! let read = tokens(alloc, b"z = NOT(a)\n")?; // `read.list` has `z`, `=`, `NOT`, `(`, `a` and `)`, by their places
//! ```
#![tactic(auto)]

mod class;
pub mod form;
pub mod law;
mod piece;
pub mod scan;
mod taking;
mod token;

pub use class::{Class, class_of, is_name_byte};
pub use piece::no_more;
pub use token::{Mark, TextNo, Token, Tokens};
