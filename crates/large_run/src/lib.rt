//! The run of a large design: a netlist that is drawn is compiled for a machine that it always fits, and
//! run under rows that are drawn after it. The answer is a summary of the plan and of the printed cells.
//! One small generator draws the netlist, of a given number of gates, and then the rows, so that every run
//! makes the same ones.
//!
//! ```
//! let text = large(&rt, alloc, 2, 2, 4, gates.as_mut_slice())?; // two gates, two cycles and four workers:
//! // "gates 2 nodes 2 slots 9 crossings 5\nzeros 2 ones 2 xs 0 zs 0\n"
//! ```
#![tactic(auto)]

mod counts;
mod design;
mod draws;
mod gate;
pub mod law;
mod machine;
mod netlist;
mod run;
mod stimulus;
mod summary;

pub use netlist::{Generated, large_net};
pub use run::large;
pub use stimulus::large_rows;
pub use summary::{CellCounts, Summary, summary_text};
