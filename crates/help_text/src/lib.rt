//! What `help` prints: of all commands in brief, or of one command. The options of each are those of the list that the
//! reader of words goes by.
//!
//! ```
//! let text = help_text(alloc, &Some(Topic::Fault))?; // what `yse help fault` prints
//! ```
#![tactic(auto)]

mod brief;
mod detail;
mod forms;
pub mod law;
mod options;
mod text;

pub use forms::form;
pub use text::help_text;
