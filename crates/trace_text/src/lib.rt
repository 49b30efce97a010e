//! The lines of a trace: a header with the printed names, and for each cycle its number, a space and
//! a character for each printed signal. Each line is made in the same room, which is taken once. And the
//! writing of a trace that a run kept, one line a piece; and the line that stands before the trace of a lane.
//!
//! ```
//! let mut line = TraceLine::new(alloc, &net)?;
//! let wrote = write_trace(&mut out, &net, &mut line, rows.rows.as_slice()); // "cycle 22 23\n", "1 10\n", ..
//! ```
#![tactic(auto)]

mod line;
mod mark;
mod texts;
mod traces;

pub use line::TraceLine;
pub use mark::LaneMark;
pub use texts::write_texts;
pub use traces::write_trace;
