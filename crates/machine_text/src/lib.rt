//! The machine text: how many processors a machine has, and how large they are.
//!
//! A line outside its comment is blank, or it is a word, blanks and a decimal number. The word is
//! one of `logic`, `array`, `slots`, `functions` and `bits` in any letter case, and stands at most
//! once in the text. A quantity with no line has its default.
//!
//! A text whose first line that is not blank is `version 2` may also have the word `nodes`, and a
//! port between `functions`, `nodes` or `bits` and its number: the limit of that port, in place of
//! the limit of all ports.
//!
//! ```
//! let machine = read_machine(alloc, b"logic 2\nslots 7\n")?; // and one array processor, as by default
//! let refusal = read_machine(alloc, b"logic 2\nlogic 3\n").err(); // MachNo::Twice { line: 2 }
//! ```
#![tactic(auto)]

mod digits;
mod given;
pub mod law;
mod machine;
mod quantity;
mod reading;
mod saying;

pub use machine::{Limited, MachNo, Machine, PortLimit};
pub use reading::read_machine;
