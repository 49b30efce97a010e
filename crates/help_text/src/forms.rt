//! The form of a command: its word, what it takes, and its options.

ghost use Rattle.std.specs.Prelude.{◌≡◌, ◌++◌, map, IfOk, OnOk};
ghost use Rattle.help_text.specs.Forms.{bracketed, filled, form_of, head_of, left_after, placed};
ghost use Rattle.help_text.specs.Notes.{operands};

use crate::options::value_word;
use cmd_words::Topic;
use seen_list::{Memory, Text};
use std::alloc::Global;

/// The most bytes of a line.
pub const LINE: usize = 80;

/// The blanks that a further line of a form begins with.
const INDENT: usize = 4;

/// The form of a command, without an LF at its end. It goes on over further lines of at most 80 bytes.
pub fn form(alloc: Global, topic: &Topic) -> Result<Text, Memory>
    ensures { IfOk result (λ form. form ≡ form_of topic.now) }
{
    let mut form = head(alloc, topic)?;
    let left = LINE.saturating_sub(form.len());
    fill(alloc, &mut form, left, topic.options())?;
    Ok(form)
}

/// What stands before the options.
#[tactic(auto, unfolding(crate::specs::Forms::head_of))]
fn head(alloc: Global, topic: &Topic) -> Result<Text, Memory>
    ensures { IfOk result (λ head. head ≡ head_of topic.now) }
{
    let mut head = Text::new(alloc);
    head.push_bytes(b"yse ")?;
    head.push_bytes(topic.word().as_bytes())?;
    head.push_bytes(operands(topic).as_bytes())?;
    Ok(head)
}

/// What a command takes: a capital word for each file or number.
#[tactic(auto, unfolding(crate::specs::Notes::operands))]
fn operands(topic: &Topic) -> &'static str
    ensures { result.now ≡ operands topic.now }
{
    match topic {
        Topic::Run | Topic::Refer | Topic::Order | Topic::Fault | Topic::Cover => {
            " NETLIST STIMULUS"
        }
        Topic::Plan | Topic::Show | Topic::Compile => " NETLIST",
        Topic::Large => " GATES CYCLES",
        Topic::Exec => " NETLIST IMAGE STIMULUS",
        Topic::Pack => " NETLIST STIMULI",
        Topic::Help => " [COMMAND]",
    }
}

/// Adds the options of these names, where so many columns are left.
fn fill(alloc: Global, form: &mut Text, left: usize, names: &[&str]) -> Result<(), Memory>
    ensures { OnOk result (form.new ≡ form.old ++ filled left (map (λ name. bracketed name.now) names.now)) }
{
    let mut left = left;
    'names: for name in names {
        let option = bracketed(alloc, *name)?;
        left = place(form, left, option.as_bytes())?;
    }
    Ok(())
}

/// An option as it stands in a form.
#[tactic(auto, unfolding(crate::specs::Forms::bracketed))]
fn bracketed(alloc: Global, name: &str) -> Result<Text, Memory>
    ensures { IfOk result (λ option. option ≡ bracketed name.now) }
{
    let mut option = Text::new(alloc);
    option.push_bytes(b"[--")?;
    option.push_bytes(name.as_bytes())?;
    option.push_bytes(b" ")?;
    option.push_bytes(value_word(name).as_bytes())?;
    option.push_bytes(b"]")?;
    Ok(option)
}

/// Adds an option to the line, or to a further one, and answers how many columns are left.
fn place(form: &mut Text, left: usize, option: &[u8]) -> Result<usize, Memory>
    ensures { IfOk result (λ rest. (form.new ≡ form.old ++ placed left option.now) × (rest ≡ left_after left option.now)) }
{
    if option.len() < left {
        form.push_bytes(b" ")?;
        form.push_bytes(option)?;
        Ok(left - option.len() - 1)
    } else {
        form.push_bytes(b"\n    ")?;
        form.push_bytes(option)?;
        Ok((LINE - INDENT).saturating_sub(option.len()))
    }
}
