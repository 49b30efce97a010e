//! One turn of a netlist as operations on places, in one lane or in many at once. What is made once before a
//! run, the state before the first turn, and a turn, in which signals may be stuck at a value. The reference
//! simulation is this of a single value a place, and the runs of faults side by side are this of many.
//!
//! ```
//! let schedule = make_schedule::<V4>(alloc, &net, &timing, ranks.order.as_slice())?; // in rank order
//! let mut ports = make_ports(alloc, &net)?;
//! let mut state = initial_state::<V4>(alloc, &net, &timing, 1)?; // of one lane
//! run_cycle(&mut state, &mut ports, &net, &timing, &schedule, &(), inputs, true); // `true`: it is the first one
//! let row = state.row(&net); // the value of each signal at the end of the first cycle
//! ```
#![tactic(auto)]

mod bases;
mod cycle;
mod gate_list;
mod initial;
mod ops;
mod ram;
mod schedule;
mod state;
mod step;
mod tables;
mod values;
mod wire;

pub use cycle::run_cycle;
pub use initial::initial_state;
pub use ops::PairOp;
pub use ram::{RamPort, make_ports};
pub use schedule::{Schedule, make_schedule};
pub use state::LaneState;
pub use values::gather;
pub use wire::Wire;
