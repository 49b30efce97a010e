//! The logic processor: it looks gates up and holds registers, and executes what the image has, in one lane or in
//! thirty at once.
//!
//! ```
//! let mut port = LogicPort::<V4>::new(alloc, &image, &stim, 0)?; // of `z = NOT(a)`, which it has in slot 1
//! port.begin_turn();
//! port.receive(0, V4::One); // `a`, from the host
//! let value = port.execute(1); // V4::Zero, for `z`
//! port.end_turn();
//! ```
#![tactic(auto)]

mod op;
mod port;

pub use port::LogicPort;
