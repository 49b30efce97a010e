//! The host: it feeds the inputs from the rows of a stimulus, and keeps what is printed after the
//! last turn of each cycle.
//!
//! ```
//! let mut host = HostPort::new(alloc, &image, &stim, 4096)?; // with room for the rows of 4,096 cycles
//! host.begin_turn();
//! let value = host.execute(0); // V4::One: input `a`, where the first row is 1
//! host.receive(1, V4::Zero); // `z = NOT(a)`, which is printed
//! host.end_turn(); // cycle 1 is over, and `host.cells(1)` is [V4::Zero]
//! ```
#![tactic(auto)]

mod cells;
pub mod cursor;
pub mod law;
mod port;

pub use port::HostPort;
