//! The first-fit plan: items, in their order, each in the first slot that nothing before it rules
//! out, whatever the number of slots, and then whether the plan fits the machine.
//!
//! ```
//! let plan = first_fit(alloc, &nodes, &homes, &machine)?; // c17 on two logic processors: 8 slots
//! // or PlanNo::Slots { needed: 8, limit: 7 }
//! ```
#![tactic(auto)]

mod board;
mod early;
mod fit;
mod planning;
pub mod tables;

pub use fit::{PlanNo, first_fit};
