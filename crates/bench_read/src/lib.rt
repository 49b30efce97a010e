//! The netlist of a text in the ISCAS'89 `.bench` format, or the text's first fault; and the gates, or
//! the stuck faults, that a list names by a line for each, or the list's first fault.
//!
//! List text: a line outside its comment is blank, or it is the name of a gate, with blanks around.
//! No gate is named twice. In a list of stuck faults it is the name of a signal, then `0` or `1`, and
//! then perhaps `-`. The formats are this project's profile.
//!
//! ```
//! let net = read_bench(alloc, b"INPUT(a)\nOUTPUT(z)\nz = NOT(a)\n")?; // signal 0 is `a`, signal 1 is `z`
//! let refusal = read_bench(alloc, b"z = NOT(a)\n").err(); // BenchNo::Undriven, with `a` and line 1
//! let faults = read_faults(alloc, b"a 0\nz 1\n", &net)?; // `a` stuck at 0, and `z` at 1
//! ```
#![tactic(auto)]

mod draft;
mod drivers;
pub mod law;
mod lines;
pub mod list_law;
mod list_line;
mod list_reading;
mod names;
mod netlist;
mod numbers;
mod read;
mod refusal;
mod rows;
mod say;
pub mod stuck_law;
mod stuck_line;
mod stuck_reading;

pub use list_reading::read_last;
pub use read::read_bench;
pub use refusal::{BenchNo, FaultNo, LastNo, Many};
pub use stuck_reading::read_faults;
