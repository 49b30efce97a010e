//! Which port each item and each memory is at: memories in their order at the first array port with
//! room, nodes and latches in turn over the logic ports, past those that are full. And better homes: nodes
//! move to ports where fewer items cross, until no move lowers their number.
//!
//! ```
//! let plain = homes(alloc, &nodes, &machine)?; // c17 on two logic processors: its gates at 0, 1, 0, 1, 0, 1
//! let improved = better(alloc, &nodes, &plain, &machine)?; // homes with 9 crossings in place of 10
//! ```
#![tactic(auto)]

mod bags;
mod blocks;
mod improve;
pub mod law;
mod links;
mod loads;
mod moves;
mod pick;
mod ports;
mod pulls;
mod spread;
mod turns;
mod uses;

pub use blocks::block_bits;
pub use improve::{Improved, better};
pub use pick::{HomeNo, homes};
