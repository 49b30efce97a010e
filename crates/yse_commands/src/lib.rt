//! The commands: a function for each, which makes the steps of its call, and answers its output or its refusal, one
//! module for each.
//!
//! ```
//! let mut output = refer(alloc, &mut files, &words)?; // or the refusal of the first check that refuses
//! let wrote = write_output(&mut out, &mut output); // Ok(()): `out` took "cycle 22 23\n", "1 10\n" and so on
//! ```
#![tactic(auto)]

mod compile;
pub mod cover;
pub mod exec;
pub mod fault;
pub mod help;
pub mod large;
mod layout;
pub mod order;
pub mod output;
pub mod pack;
mod plan;
pub mod refer;
pub mod run;
pub mod show;
mod steps;

pub use layout::{Sheet, lay_out};
