//! Stuck faults: up to 256 designs side by side, and where each fault is first seen. A stuck signal has the same
//! value at every turn. Many faulty designs run side by side with the good one, in groups that are dealt to
//! threads. The lines of the verdicts are made here too.
//!
//! ```
//! let verdicts = fault_all(&rt, alloc, &net, &ranks, &timing, &stim, 4)?; // where each is first seen; by four workers
//! let faults = all_faults(alloc, &net)?; // stuck at 0 and stuck at 1, for each signal
//! let lines = fault_lines(alloc, &net, faults.as_slice(), verdicts.as_slice())?;
//! // c17 under 11111 and 00000: "1 0 1 22\n" (input 1, at 0, in cycle 1, at 22), .., "detected 13 of 22\n"
//! ```
#![tactic(auto)]

ghost use Rattle.fault_sim.specs.{Faults.StepsAsStuck, Faults.StuckStepsRight, Faults.HasOneFaulty, Verdicts.AreAllFaults, Verdicts.HaveOneList};

mod all;
mod faults;
mod force;
mod group;
mod lines;
mod look;
mod wires;

pub use all::{all_faults, fault_all, fault_list};
pub use faults::Verdict;
pub use group::fault_group;
pub use lines::fault_lines;
pub use net_defs::Fault;

/// A law: where the netlist has no loop, each fault has exactly one faulty simulation, and its steps are
/// those in which the stuck signal has its value and all else is as ever. It does nothing.
pub fn one_faulty()
    ensures steps { StepsAsStuck }
    ensures right { StuckStepsRight }
    ensures one { HasOneFaulty }
{}

/// A law: where the netlist has no loop, there is exactly one list of the verdicts on some of its faults, and
/// so on all of them. It does nothing.
pub fn one_list()
    ensures one { HaveOneList }
    ensures all { AreAllFaults }
{}
