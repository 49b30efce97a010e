//! Homes, readers, the first-fit plan, when it fits a machine, and the switch, as definitions; and rows of bits. A
//! plan says at which port each item is, and in which slot of a turn. The definitions are in `specs/`: which homes
//! are homes of these items, which ports read an item, the first-fit plan, when a design fits a machine, and the
//! settings of the switch. Sets of slots are kept in rows of bits.
//!
//! ```
//! ensures plan { IfOk result (IsFirstFitPlan nodes.now homes.now) } // a clause of `first_fit` in `slot_plan`
//! let readers = Readers::new(alloc, &nodes, &homes)?; // readers.of(6) is [0]: gate 11 of c17 goes to port 0
//! ```
#![tactic(auto)]

mod bit_rows;
pub mod law;
mod plan;
mod readers;
mod switch;
mod users;

pub use bit_rows::BitRows;
pub use plan::{Homes, Plan};
pub use readers::Readers;
pub use switch::{PortLinks, Receipt, Sending, Switch};
