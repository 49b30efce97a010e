//! Builds an image: fixed programs for the ports of a machine and fixed links between them, for items
//! at their homes in their slots.
//!
//! ```
//! let image = build(alloc, &nodes, &homes, &plan, &switch, &timing)?;
//! // c17 on two logic processors: four ports, the array processor and the host among them, and 8 slots
//! ```
#![tactic(auto)]

mod array;
mod host;
mod image;
mod links;
mod logic;
mod memories;
pub mod port_items;
mod sources;

pub use image::build;
