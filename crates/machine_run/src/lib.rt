//! A whole machine, run by a crew of workers over one crossbar: each port is dealt to one of them, which
//! steps it to the end of a block of cycles. Once all ports are there, they go on with the next block. The rows of a block are written before the next is begun: so a run
//! keeps the printed cells of one block and no more, however many cycles it has, and its first rows are
//! written while later ones are still to be computed.
//!
//! ```
//! let mut gates = count_gates(alloc, 4)?;
//! let division = Division { banks: 1, workers: 4 };
//! let wrote = run_blocks(&rt, alloc, &net, &image, &stim, division, gates.as_mut_slice(), &mut out)?;
//! // Ok(()): `out` took the trace, and each gate was told of the turns of its worker's ports
//! ```
#![tactic(auto)]

mod blocks;
mod crew;
mod deal;
mod gates;
mod lines;
mod machine;
mod rows;
mod seats;
mod steps;
mod window;

pub use blocks::{Division, run_blocks};
pub use crew::Crew;
pub use deal::{Seats, worker_of, workers_of};
pub use gates::count_gates;
pub use machine::run_machine;
