//! Events: what ports do to the words that they share, which states are sound, and what an order of steps comes to.
//! The ports of an image run beside one another and share nothing but these words. Each port steps by single
//! events; a word holds a turn and the code of a value, and a port's progress word the number of turns that it has
//! finished. The definitions are in `specs/`: where a port stands, what it does next, what one step of one port
//! makes of the whole state, which states are sound, and how many events a run has. They take three numbers as they
//! come: the banks of words of each send, 1 to 8, the last turn that the ports execute, and the ports in the order
//! in which they step, which is any order. And the sends of an image in one row, port after port: how many come
//! before each port, and for each receipt the number of the send that it comes from.
//!
//! ```
//! let firsts = first_sends(alloc, &image)?; // [0, 1, 2], where each of two ports sends once
//! let sources = sources_of(alloc, &image, firsts.as_slice(), 1)?; // [0]: port 1 takes what port 0 sends
//! steps_are_sound(); // a law: a proof has from here on that every order of steps leaves a sound state
//! ```
#![tactic(auto)]

pub mod law;
mod place;
mod sources;

pub use place::{Action, CoreStep, Event, Place};
pub use sources::{first_sends, source_of, sources_of};
