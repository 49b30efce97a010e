//! The array processor: it holds memories, once a lane, and its items are the bits that they answer.
//!
//! ```
//! let mut port = ArrayPort::<V4>::new(alloc, &image, &stim, 4)?; // behind four logic processors
//! port.begin_turn(); // in the first turn of a cycle its memories read and write
//! let bit = port.execute(0); // V4::Undef in turn 1, where memories begin with x
//! port.receive(0, V4::One); // what they take at the next edge comes slot by slot
//! ```
#![tactic(auto)]

mod laned;
mod memory;
mod port;

pub use laned::Laned;
pub use port::ArrayPort;
