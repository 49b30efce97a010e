//! The flat memory of a port in its run: places for its own items, for what it receives and for the constants, and
//! the place of each source. All ports of an image have it in common, and plain and packed ones too.
//!
//! ```
//! let mut bank = Bank::<V4>::new(alloc, &image, &stim, 0)?; // of port 0
//! bank.begin_turn();
//! bank.receive(0, V4::One); // what is sent to it in slot 0
//! let value = bank.take(Source::Got { slot: 0, last: false }); // V4::One
//! ```
#![tactic(auto)]

mod bank;
mod places;
mod port;
pub mod steps;
mod word;

pub use bank::Bank;
pub use lane_planes::Planes;
pub use port::Port;
pub use word::Word;
