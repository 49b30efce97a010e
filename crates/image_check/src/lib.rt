//! Images that come from elsewhere: an image with its claims, which say of each of its places which item
//! of a netlist stands there, and the check whether it matches the items. What the check says, and
//! where, is in `specs/`.
//!
//! ```
//! let checked = check_image(alloc, &file, &nodes, &timing); // Ok(()): each place is as the item that it claims
//! // or CheckNo::Place { port: 0, slot: 3 }: this one isn't
//! ```
#![tactic(auto)]

mod check;
mod claims;
mod form;
pub mod law;
mod links;
mod memories;
mod nodes;
mod places;
mod ports;
mod search;
mod shapes;
mod sources;
mod timing;
mod works;

pub use check::{CheckNo, check_image};
