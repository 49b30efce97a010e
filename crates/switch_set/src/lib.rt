//! The settings of the switch: what each port sends and receives in each slot, so that every item
//! reaches the ports that read it, and no port sends or receives twice in a slot.
//!
//! ```
//! let switch = settings(alloc, &nodes, &homes, &plan)?;
//! // c17 on two logic processors: in slot 4 port 1 sends gate 11, and port 0 receives from port 1
//! ```
#![tactic(auto)]

pub mod law;
mod links;
pub mod order;
mod route;

pub use route::settings;
