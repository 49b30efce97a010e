//! `help`: what a command is called with and what it prints, or the same of all in brief.

ghost use Rattle.std.specs.Prelude.{[], Err, IfOk, None};
ghost use Rattle.yse_commands.specs.{Outputs.CanWrite, Refusals.outcome_of, commands.Help.Helps};

use crate::output::Output;
use cmd_words::Topic;
use help_text::help_text;
use refusals::Refusal;
use std::alloc::Global;

/// The text of a command, or of all.
pub fn help<'a>(alloc: Global, topic: &Option<Topic>) -> Result<Output, Refusal<'a>>
    ensures expected { Helps topic.now [] (Err (outcome_of None result)) }
    ensures writable { IfOk result CanWrite }
{
    let text = help_text(alloc, topic)?;
    Ok(Output::Text(text))
}
