//! A whole machine in one thread, stepped by single events: any port at any time, in an order that is
//! given, or round after round to its end, and the rows that are done then. The crate `event_defs` says
//! what a step is, which states are sound and how many events a run has; here is the machine that makes
//! the steps. Its contracts see of it its image, its stimulus, the number of banks, the places of its
//! ports and the words that they share.
//!
//! ```
//! let rows = rows_by_rounds(alloc, &image, &stim, 1)?; // c17 under 11111, 00000 and xxxxx: 10, 00 and xx
//! let mut core = Core::new(alloc, &image, &stim, 1)?;
//! let step = core.apply(3); // CoreStep::Moved(Event::Put { slot: 0 }), where port 3 is the host
//! ```
#![tactic(auto)]

mod core_ports;
mod core_run;
mod rows;
mod steps;
mod words;

pub use core_run::Core;
pub use event_defs::{CoreStep, Event};
pub use steps::{rows_by_order, rows_by_rounds};
