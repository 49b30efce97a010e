//! A port of any kind with its place in the turn: it executes its items by itself, as far as it
//! can, and tells what comes next between it and the other ports.
//!
//! ```
//! let mut port = AnyPort::new(alloc, &image, &stim, 0, 4096)?; // port 0, in blocks of 4,096 cycles
//! let action = port.next(&[0, 0, 0, 0], 1); // of c17 on two logic processors: Action::Take { slot: 0 }
//! port.took(V4::One); // input 1, under 11111
//! ```
#![tactic(auto)]

mod any_port;
mod kind;
pub mod lists;
mod readers;
mod stops;
mod upcoming;
mod walk;

pub use any_port::AnyPort;
pub use event_defs::Action;
pub use upcoming::Upcoming;
pub use walk::Walk;
