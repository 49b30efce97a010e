//! Netlists, timing, stimuli and rows of values, and the reference definitions: what a simulation
//! of a netlist is, and which text is its trace. The definitions are in `specs/`; they know no
//! order in which gates are evaluated.
//!
//! ```
//! ensures simulated { OnOk result (HasOneSimulation net.now timing.now stim.now) } // a clause of `refer` in `ref_sim`
//! let text = show(alloc, &net)?; // the canonical text of c17: "INPUT(1)\n", .., "23 = NAND(16, 19)\n"
//! ```
#![tactic(auto)]

mod canonical;
mod faults;
mod homes;
mod loops;
mod netlist;
mod ranks;
mod stimulus;
mod timing;
mod trace;

pub use canonical::{name_of, show};
pub use faults::Fault;
pub use homes::HomeChoice;
pub use loops::{is_gate, is_late, waits_for};
pub use netlist::{Block, Driver, Netlist, Signal};
pub use ranks::Ranks;
pub use stimulus::{StimRow, Stimulus};
pub use timing::{Init, Mode, Timing, initial_value, is_edge};
pub use trace::{CellRow, Rows};
