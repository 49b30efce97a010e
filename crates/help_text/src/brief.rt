//! What each command does, in a few words.

ghost use Rattle.std.specs.Prelude.{◌≡◌};
ghost use Rattle.help_text.specs.Notes.{does};

use cmd_words::Topic;

pub const RUN: &str = "the trace, by the compiled machine";

pub const REFER: &str = "the trace, by evaluating the netlist";

pub const ORDER: &str = "the trace, by the compiled machine, in an order of its steps";

pub const PLAN: &str = "how the netlist is laid out on the machine";

pub const SHOW: &str = "the netlist as it was read, without comments";

pub const LARGE: &str = "the summary of a run of a generated design";

pub const COMPILE: &str = "the netlist's image, which the machine executes";

pub const EXEC: &str = "the trace, by an image from a file, which is checked";

pub const PACK: &str = "the traces of up to 30 stimuli in one pass, by the compiled machine";

pub const FAULT: &str = "where each stuck signal is first seen";

pub const COVER: &str = "which values and changes each signal had, by evaluating the netlist";

pub const HELP: &str = "this text, or more of one command";

/// What a command does.
#[tactic(auto, unfolding(crate::specs::Notes::does))]
pub fn does(topic: &Topic) -> &'static str
    ensures { result.now ≡ does topic.now }
{
    match topic {
        Topic::Run => RUN,
        Topic::Refer => REFER,
        Topic::Order => ORDER,
        Topic::Plan => PLAN,
        Topic::Show => SHOW,
        Topic::Large => LARGE,
        Topic::Compile => COMPILE,
        Topic::Exec => EXEC,
        Topic::Pack => PACK,
        Topic::Fault => FAULT,
        Topic::Cover => COVER,
        Topic::Help => HELP,
    }
}
