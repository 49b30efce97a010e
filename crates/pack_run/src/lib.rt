//! Packed ports that run beside one another over a packed crossbar: each by itself takes its next event, in one
//! step that its pass counts, which is that event in all lanes at once.
//!
//! To run an image on lanes, hand the ports of all passes to a crew, as below. Once all have made all turns the
//! host has the cells of all cycles of the longest lane. That they get done no contract says.
//!
//! ```
//! let (bar, passes) = PackBar::make(&rt, alloc, &image, &lanes)?;
//! let port = PackPort::new(alloc, &image, &lanes, pass.port())?; // for each of these passes
//! let run = PackRunning::new(pass, port);
//! let seated = PackSeated { bar: &bar, run }; // a member of a crew
//! ```
#![tactic(auto)]

pub mod law;
mod running;
mod seated;

pub use crew_run::Step;
pub use pack_walk::PackPlaced as PackPort;
pub use running::PackRunning;
pub use seated::PackSeated;
