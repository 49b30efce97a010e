//! The files that a request names: each is begun, read and checked, one step of a call for each; and the checks of what
//! was read. What a step lets pass goes on, and a refusal ends the call.
//!
//! ```
//! let net = netlist_in(alloc, &mut files, b"c17.bench")?; // or Refusal::ReadFault, or Refusal::Netlist
//! let stim = stimulus_in(alloc, &mut files, b"c17.stim", &net)?; // five values a row
//! let ready = ready_on_machine(alloc, &mut files, &words)?; // what the words of a run name, compiled
//! ```
#![tactic(auto)]

mod checks;
mod designs;
mod images;
mod reading;
mod sizes;

pub use checks::{Built, Design, WithRanks, few_cells, ordered, ranked};
pub use designs::{
    OnMachine, Planned, Ready, Runnable, few_ready_cells, lanes_for, on_machine, order_for,
    planned_on_machine, ready_on_machine, runnable_in,
};
pub use reading::{Timed, design_from, faults_from, machine_from, netlist_in, stimulus_in};
pub use sizes::{few_bits, few_lane_cells, few_signals};
