//! The words of a command line, and the command that they ask for.
//!
//! ```
//! let command = read_words(alloc, words)?; // of `show c17.bench`: Command::Show, whose `netlist` is c17.bench
//! ```
#![tactic(auto)]

mod command;
pub mod law;
mod options;
mod parsing;
mod reading;
mod settings;
mod topic;

pub use command::{Command, RunWords, WordNo};
pub use reading::read_words;
pub use topic::{Topic, all_topics};
