//! The whole texts.

ghost use Rattle.std.specs.Prelude.{◌≡◌, ◌++◌, IfOk, OnOk};
ghost use Rattle.std.specs.List.{flat_map};
ghost use Rattle.help_text.specs.Texts.{about, entry, option_line, overview, text_of};

use crate::brief::does;
use crate::detail::prints;
use crate::forms::form;
use crate::options::{says, value_word};
use cmd_words::{Topic, all_topics};
use seen_list::{Memory, Text};
use std::alloc::Global;

/// The first line of the text of all commands: the program and its version.
pub const HEAD: &str =
    "yse 1.0, a simulator of gate-level netlists whose traces are proved right\n";

/// The last lines of the text of all commands: the statuses.
pub const STATUSES: &str = "
Statuses, each but 0 with a line on standard error:
   0  the whole output was written
   2  the words are of no command's form
   3  a file could not be read
   4  the output could not be written, or not all of it
   5  the netlist is refused
   6  the machine text is refused
   7  gates wait for one another in a loop
   8  the netlist does not fit the machine
   9  the stimulus, or the text of lanes, is refused for these inputs
  10  a file, a run or a design is larger than the command takes
  11  an order ended before every port was done
  12  the order text is refused
  13  the list of gates is refused
  14  the image's text is refused
  15  the image does not match the netlist or the words
  16  the list of faults is refused
  70  want of memory
";

/// What help prints of a command, or of all.
pub fn help_text(alloc: Global, topic: &Option<Topic>) -> Result<Text, Memory>
    ensures { IfOk result (λ text. text ≡ text_of topic.now) }
{
    match topic {
        Some(topic) => about(alloc, topic),
        None => overview(alloc),
    }
}

/// The text of one command.
#[tactic(auto, unfolding(crate::specs::Texts::about))]
fn about(alloc: Global, topic: &Topic) -> Result<Text, Memory>
    ensures { IfOk result (λ text. text ≡ about topic.now) }
{
    let mut text = form(alloc, topic)?;
    text.push_bytes(b"\n")?;
    push_options(&mut text, topic.options())?;
    text.push_bytes(b"\n")?;
    text.push_bytes(prints(topic).as_bytes())?;
    Ok(text)
}

/// Adds a line for each of the options of these names.
fn push_options(text: &mut Text, names: &[&str]) -> Result<(), Memory>
    ensures { OnOk result (text.new ≡ text.old ++ flat_map (λ name. option_line name.now) names.now) }
{
    'names: for name in names {
        push_option(text, *name)?;
    }
    Ok(())
}

#[tactic(auto, unfolding(crate::specs::Texts::option_line))]
fn push_option(text: &mut Text, name: &str) -> Result<(), Memory>
    ensures { OnOk result (text.new ≡ text.old ++ option_line name.now) }
{
    text.push_bytes(b"  --")?;
    text.push_bytes(name.as_bytes())?;
    text.push_bytes(b" ")?;
    text.push_bytes(value_word(name).as_bytes())?;
    text.push_bytes(b": ")?;
    text.push_bytes(says(name).as_bytes())?;
    text.push_bytes(b"\n")?;
    Ok(())
}

/// The text of all commands.
#[tactic(auto, unfolding(crate::specs::Texts::overview))]
fn overview(alloc: Global) -> Result<Text, Memory>
    ensures { IfOk result (λ text. text ≡ overview) }
{
    let mut text = Text::new(alloc);
    text.push_bytes(HEAD.as_bytes())?;
    push_entries(alloc, &mut text, all_topics())?;
    text.push_bytes(STATUSES.as_bytes())?;
    Ok(text)
}

/// Adds the form of each of the commands, and what it does.
fn push_entries(alloc: Global, text: &mut Text, topics: &[Topic]) -> Result<(), Memory>
    ensures { OnOk result (text.new ≡ text.old ++ flat_map entry topics.now) }
{
    'topics: for topic in topics {
        push_entry(alloc, text, topic)?;
    }
    Ok(())
}

#[tactic(auto, unfolding(crate::specs::Texts::entry))]
fn push_entry(alloc: Global, text: &mut Text, topic: &Topic) -> Result<(), Memory>
    ensures { OnOk result (text.new ≡ text.old ++ entry topic.now) }
{
    let form = form(alloc, topic)?;
    text.push_bytes(b"\n")?;
    text.push_bytes(form.as_bytes())?;
    text.push_bytes(b"\n    ")?;
    text.push_bytes(does(topic).as_bytes())?;
    text.push_bytes(b"\n")?;
    Ok(())
}
