//! Ports that run beside one another over a crossbar: each by itself takes its next event, in one step that its
//! pass counts. What a step does is the core's event of the same port, by the number that it found in the word that
//! the step names.
//!
//! Turns make a cycle, and cycles make a block: a port runs one block after the other, each of at most as many
//! cycles as its window, and rests at the end of each until `go_on`.
//!
//! To run an image, hand the ports of all passes to a crew, as below, all of one window. Once all have made the
//! turns of their block the host has the rows of its cycles, and when all have gone on they are run again. That
//! they get done no contract says.
//!
//! ```
//! let (bar, passes) = Crossbar::make(&rt, alloc, &image, &stim, 1)?;
//! let port = AnyPort::new(alloc, &image, &stim, pass.port(), 4096)?; // for each of these passes
//! let run = Running::new(pass, port);
//! let seated = Seated { bar: &bar, run }; // a member of a crew
//! ```
#![tactic(auto)]

pub mod law;
mod running;
mod seated;

pub use crew_run::Step;
pub use running::Running;
pub use seated::Seated;
