//! What each command prints, and a call of it that can be typed in `examples/`.

ghost use Rattle.std.specs.Prelude.{◌≡◌};
ghost use Rattle.help_text.specs.Notes.{prints};

use cmd_words::Topic;

pub const RUN: &str =
    "Prints the names of the printed signals, and for each cycle its number and their
values, one character each: 0, 1, x or z.

Example: yse run c17.bench c17.stim --workers 2
";

pub const REFER: &str =
    "Prints the names of the printed signals, and for each cycle its number and their
values, one character each: 0, 1, x or z.

Example: yse refer s27.bench s27.stim --init 0
";

pub const ORDER: &str =
    "Prints the trace, as run does; where the order ends too early, the cycles that
are done.

Example: yse order latch.bench latch.stim --mode unit --units 4
";

pub const PLAN: &str =
    "Prints the slots of a turn, a line for each processor, and one for each item:
its name, its processor, its slot, and the processors that read it.

Example: yse plan c17.bench --homes better
";

pub const SHOW: &str = "Prints a line for each input, printed name, gate, register and memory.

Example: yse show s27.bench
";

pub const LARGE: &str =
    "Prints the numbers of gates, nodes, slots and crossings, and those of printed
zeros, ones, xs and zs. GATES is 1 to 30000, CYCLES 1 to 10000.

Example: yse large 200 20 --workers 2
";

pub const COMPILE: &str = "Prints the image, as exec reads it.

Example: yse compile c17.bench --homes better
";

pub const EXEC: &str = "Prints the trace, as run does.

Example: yse exec c17.bench hand.image c17.stim
";

pub const PACK: &str =
    "Prints for each lane a line with its number, and its trace. In the file a line
`lane` begins each stimulus.

Example: ./join-lanes c17.stim c17.stim | yse pack c17.bench /dev/stdin
";

pub const FAULT: &str =
    "Prints for each fault the signal, the value that it is stuck at, and the cycle
and the printed name at which that shows, or -; and how many show.

Example: yse fault c17.bench c17.stim
";

pub const COVER: &str =
    "Prints each signal with 01rf: at ends of cycles it was 0, it was 1, it rose, it
fell, or - in its place; and how many signals did all four.

Example: yse cover c17.bench c17.stim
";

pub const HELP: &str =
    "Prints the form of the command, its options, what it prints, and an example; or
of all commands the form and what they do, and the statuses.

Example: yse help run
";

/// What a command prints, and an example. The call stands behind `Example: ` in the last line.
#[tactic(auto, unfolding(crate::specs::Notes::prints))]
pub fn prints(topic: &Topic) -> &'static str
    ensures { result.now ≡ prints topic.now }
{
    match topic {
        Topic::Run => RUN,
        Topic::Refer => REFER,
        Topic::Order => ORDER,
        Topic::Plan => PLAN,
        Topic::Show => SHOW,
        Topic::Large => LARGE,
        Topic::Compile => COMPILE,
        Topic::Exec => EXEC,
        Topic::Pack => PACK,
        Topic::Fault => FAULT,
        Topic::Cover => COVER,
        Topic::Help => HELP,
    }
}
