//! The items of a netlist: inputs, memory outputs, and the nodes of its gates and registers, each
//! gate of more than four operands cut into several.
//!
//! ```
//! let nodes = map_nodes(alloc, &net, &ranks, &timing)?; // c17: items 0 to 4 are its inputs, 5 to 10 its gates
//! ```
#![tactic(auto)]

mod items;
mod keys;
pub mod law;
mod map;
mod nodes;
mod numbering;
mod palette;
mod ranks;
mod wires;

pub use map::map_nodes;
