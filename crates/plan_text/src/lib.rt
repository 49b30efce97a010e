//! The report of a plan: how many slots a turn wants, what each port has to do, and where each item is
//! computed, in which slot, and which ports read it. And the number of crossings of a plan.
//!
//! ```
//! let text = report(alloc, &net, &nodes, &homes, &plan, &switch)?; // "slots 8\nl0 items 3 tables 1 takes 4\n", ..
//! let count = crossings(alloc, &nodes, &homes)?; // 10, for c17 on two logic processors
//! ```
#![tactic(auto)]

mod crossing;
pub mod figures;
pub mod law;
mod lines;
mod plan_report;

pub use crossing::crossings;
pub use plan_report::report;
