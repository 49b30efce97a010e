//! The words of a memory, two bits a value, and what an edge reads and writes.
//!
//! ```
//! let mut cells = Cells::new(alloc, 2, 1, V4::Undef)?; // four words of one bit, all undefined
//! let mut outs = [V4::Zero];
//! cells.edge(V4::One, &[V4::One, V4::Zero], &[V4::One], &mut outs); // reads x at address 1, then writes 1 there
//! let bit = cells.bit(1, 0); // V4::One
//! ```
#![tactic(auto)]

mod cells;
mod places;
mod sheet;

pub use cells::Cells;
