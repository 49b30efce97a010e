//! Why a call did not end well: each refusal, with the status and the line of it. A line is written in pieces, without
//! taking memory.
//!
//! ```
//! let status = refuse(&mut err, Refusal::from(MachNo::Range { line: 2 })); // Status::Machine, whose number is 6
//! // `err` took "machine: line 2: out of range\n"
//! ```
#![tactic(auto)]

mod diagnostics;
mod lines;
mod refusal;
mod status;

pub use diagnostics::{refuse, tell_write_fault};
pub use lines::order::write_unfinished_line;
pub use refusal::Refusal;
pub use status::Status;
