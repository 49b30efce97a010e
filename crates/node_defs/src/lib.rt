//! Items, which a netlist is for the compiler, and their values, as definitions with their laws. An input, a memory
//! output, a register, and each gate of at most four operands is one item; a wider gate is several. Each item has
//! one value a turn. The definitions, which items are those of a netlist and which values they have, are in
//! `specs/`.
//!
//! ```
//! ensures items { IfOk result (IsMapped net.now timing.now) } // a clause of `map_nodes` in `node_map`
//! let helpers = helper_count(17); // 7: 17 operands make five groups, and these make two
//! ```
#![tactic(auto)]

mod groups;
mod items;
pub mod law;

pub use groups::{Group, group_at, helper_count};
pub use items::{Feed, Feeds, Item, ItemName, NodeBlock, NodeNet, Tag};
