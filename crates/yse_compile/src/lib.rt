//! Compiles a netlist for a machine: its items, their homes and slots, the settings of the switch, and
//! the image that the processors run. When a design fits a machine, and why it doesn't, is said in
//! `specs/`.
//!
//! ```
//! let compiled = compile(alloc, &net, &machine, &timing)?; // or CompNo::Slots { needed: 8, limit: 7 }
//! let chosen = compile_with(alloc, &net, &machine, &timing, HomeChoice::Better)?;
//! // c17 on two logic processors: `chosen.before` is 10, `chosen.after` 9, and `chosen.better` true
//! ```
#![tactic(auto)]

mod choose;
pub mod claimed;
mod compiler;
pub mod inputs;
pub mod law;
pub mod matching;
mod passes;
mod words;

pub use choose::Chosen;
pub use claimed::claims;
pub use compiler::{CompNo, Compiled, compile, compile_with};
