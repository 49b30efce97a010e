//! The reader of words: the first word picks the command, and the others are parsed by its options.

ghost use Rattle.std.specs.Prelude.{◌≡◌, false, map, option_map, codes, MatchResult, IfOk};
ghost use Rattle.std.specs.String.{string_bytes};
ghost use Rattle.cmd_words.specs.declared.command.Command.TheVariants as command;
ghost use Rattle.cmd_words.specs.Asked.{Answers, asked, asked_by, says, image_by, of_two_files, of_netlist, of_one_file, of_image, of_large, of_topic, run_by, large_by};
ghost use Rattle.cmd_words.specs.code.Parses.{files_id, texts_in, of_word, value_found, settings_by};
ghost use Rattle.cmd_words.specs.Settings.{run_options, refer_options, order_options, plan_options, compile_options, exec_options, pack_options, fault_options, cover_options, show_options, large_options, help_options};
ghost use Rattle.cmd_words.specs.{declared.command.WordNo.TheVariants.Memory as NoMemory, Arguments.has_name, Forms.HasForm, Forms.HasNoForm, Forms.IsInRange};

use crate::command::{Command, RunWords, WordNo};
use crate::options::{
    COMPILE, COVER, EXEC, FAULT, HELP, LARGE, ORDER, PACK, PLAN, REFER, RUN, SHOW,
};
use crate::parsing::{
    one_argument, parse, perhaps_argument, three_arguments, two_arguments, value,
};
use crate::settings::{banks, cycles_of, gates_of, homes, timing, workers};
use crate::topic::{Topic, topic_of};
use clap::ArgMatches;
use net_defs::{HomeChoice, Timing};
use seen_list::Text;
use std::alloc::Global;

/// The command that the words ask for. When memory runs out is not said.
#[tactic(auto, using(crate::proofs::FormLemmas::read_by_form, crate::proofs::RangeLemmas::read_in_range))]
pub fn read_words(alloc: Global, words: &[String]) -> Result<Command, WordNo>
    // A command exactly where the words are of its form, and no command exactly where they are of none.
    ensures form { MatchResult result (HasForm (map string_bytes words.now)) (HasNoForm (map string_bytes words.now)) }

    // The same by the function of words that `forms_are_asked` speaks of.
    ensures asked { Answers result (asked (map string_bytes words.now)) }
    ensures range { IfOk result IsInRange }
{
    read_asked(alloc, words)
}

#[tactic(auto, unfolding(crate::specs::Asked::asked))]
fn read_asked(alloc: Global, words: &[String]) -> Result<Command, WordNo>
    ensures { Answers result (asked (map string_bytes words.now)) }
{
    match words {
        [name, others @ ..] => read_command(alloc, name.as_bytes(), others),
        [] => Err(WordNo::Usage),
    }
}

fn read_command(alloc: Global, name: &[u8], words: &[String]) -> Result<Command, WordNo>
    ensures { Answers result (asked_by name.now (map string_bytes words.now)) }
{
    if name == b"run".as_slice() {
        run(alloc, words)
    } else if name == b"refer".as_slice() {
        refer(alloc, words)
    } else if name == b"order".as_slice() {
        order(alloc, words)
    } else if name == b"plan".as_slice() {
        plan(alloc, words)
    } else if name == b"compile".as_slice() {
        compile(alloc, words)
    } else if name == b"exec".as_slice() {
        exec(alloc, words)
    } else if name == b"pack".as_slice() {
        pack(alloc, words)
    } else if name == b"fault".as_slice() {
        fault(alloc, words)
    } else if name == b"cover".as_slice() {
        cover(alloc, words)
    } else if name == b"show".as_slice() {
        show(alloc, words)
    } else if name == b"large".as_slice() {
        large(alloc, words)
    } else if name == b"help".as_slice() {
        help(alloc, words)
    } else {
        Err(WordNo::Usage)
    }
}

// ---- one function a command

fn run(alloc: Global, words: &[String]) -> Result<Command, WordNo>
    ensures { Answers result (option_map command.Run (says run_options of_two_files (map string_bytes words.now))) }
{
    Ok(Command::Run(simulation(alloc, words, RUN.as_slice())?))
}

fn refer(alloc: Global, words: &[String]) -> Result<Command, WordNo>
    ensures { Answers result (option_map command.Refer (says refer_options of_two_files (map string_bytes words.now))) }
{
    Ok(Command::Refer(simulation(alloc, words, REFER.as_slice())?))
}

fn order(alloc: Global, words: &[String]) -> Result<Command, WordNo>
    ensures { Answers result (option_map command.Order (says order_options of_two_files (map string_bytes words.now))) }
{
    Ok(Command::Order(simulation(alloc, words, ORDER.as_slice())?))
}

fn plan(alloc: Global, words: &[String]) -> Result<Command, WordNo>
    ensures { Answers result (option_map command.Plan (says plan_options of_netlist (map string_bytes words.now))) }
{
    Ok(Command::Plan(layout(alloc, words, PLAN.as_slice())?))
}

fn compile(alloc: Global, words: &[String]) -> Result<Command, WordNo>
    ensures { Answers result (option_map command.Compile (says compile_options of_netlist (map string_bytes words.now))) }
{
    Ok(Command::Compile(layout(alloc, words, COMPILE.as_slice())?))
}

fn exec(alloc: Global, words: &[String]) -> Result<Command, WordNo>
    ensures { Answers result (says exec_options of_image (map string_bytes words.now)) }
{
    accepted(alloc, words, EXEC.as_slice())
}

fn pack(alloc: Global, words: &[String]) -> Result<Command, WordNo>
    ensures { Answers result (option_map command.Pack (says pack_options of_two_files (map string_bytes words.now))) }
{
    Ok(Command::Pack(simulation(alloc, words, PACK.as_slice())?))
}

fn fault(alloc: Global, words: &[String]) -> Result<Command, WordNo>
    ensures { Answers result (option_map command.Fault (says fault_options of_two_files (map string_bytes words.now))) }
{
    Ok(Command::Fault(simulation(alloc, words, FAULT.as_slice())?))
}

fn cover(alloc: Global, words: &[String]) -> Result<Command, WordNo>
    ensures { Answers result (option_map command.Cover (says cover_options of_two_files (map string_bytes words.now))) }
{
    Ok(Command::Cover(simulation(alloc, words, COVER.as_slice())?))
}

fn show(alloc: Global, words: &[String]) -> Result<Command, WordNo>
    ensures { Answers result (option_map command.Show (says show_options of_one_file (map string_bytes words.now))) }
{
    let netlist = netlist(alloc, words, SHOW.as_slice())?;
    Ok(Command::Show { netlist })
}

fn large(alloc: Global, words: &[String]) -> Result<Command, WordNo>
    ensures { Answers result (says large_options of_large (map string_bytes words.now)) }
{
    generated(alloc, words, LARGE.as_slice())
}

fn help(alloc: Global, words: &[String]) -> Result<Command, WordNo>
    ensures { Answers result (option_map command.Help (says help_options of_topic (map string_bytes words.now))) }
{
    Ok(Command::Help(topic(alloc, words, HELP.as_slice())?))
}

// ---- what commands have in common

/// Two files and the options of a simulation.
fn simulation<'a>(
    alloc: Global,
    words: &'a [String],
    options: &'a [&'a str],
) -> Result<RunWords, WordNo>
    requires { has_name (texts_in options.now) files_id ≡ false }
    ensures { Answers result (says (texts_in options.entry.now) of_two_files (map string_bytes words.entry.now)) }
{
    let matches = parse(alloc, words, options)?;
    match two_arguments(&matches) {
        Some((netlist, stimulus)) => run_words(alloc, netlist, stimulus, &matches),
        None => Err(WordNo::Usage),
    }
}

/// One file, the netlist's, and the options of a layout.
fn layout<'a>(
    alloc: Global,
    words: &'a [String],
    options: &'a [&'a str],
) -> Result<RunWords, WordNo>
    requires { has_name (texts_in options.now) files_id ≡ false }
    ensures { Answers result (says (texts_in options.entry.now) of_netlist (map string_bytes words.entry.now)) }
{
    let matches = parse(alloc, words, options)?;
    match one_argument(&matches) {
        Some(netlist) => run_words(alloc, netlist, "", &matches),
        None => Err(WordNo::Usage),
    }
}

/// Three files, of which the second is an image, and the options of a simulation.
fn accepted<'a>(
    alloc: Global,
    words: &'a [String],
    options: &'a [&'a str],
) -> Result<Command, WordNo>
    requires { has_name (texts_in options.now) files_id ≡ false }
    ensures { Answers result (says (texts_in options.entry.now) of_image (map string_bytes words.entry.now)) }
{
    let matches = parse(alloc, words, options)?;
    match three_arguments(&matches) {
        Some((netlist, image, stimulus)) => image_words(alloc, netlist, image, stimulus, &matches),
        None => Err(WordNo::Usage),
    }
}

/// One file, the netlist's.
fn netlist<'a>(alloc: Global, words: &'a [String], options: &'a [&'a str]) -> Result<Text, WordNo>
    requires { has_name (texts_in options.now) files_id ≡ false }
    ensures { Answers result (says (texts_in options.entry.now) of_one_file (map string_bytes words.entry.now)) }
{
    let matches = parse(alloc, words, options)?;
    match one_argument(&matches) {
        Some(netlist) => Ok(Text::from_bytes(alloc, netlist.as_bytes())?),
        None => Err(WordNo::Usage),
    }
}

/// Two numbers and the options of a generated design.
fn generated<'a>(
    alloc: Global,
    words: &'a [String],
    options: &'a [&'a str],
) -> Result<Command, WordNo>
    requires { has_name (texts_in options.now) files_id ≡ false }
    ensures { Answers result (says (texts_in options.entry.now) of_large (map string_bytes words.entry.now)) }
{
    let matches = parse(alloc, words, options)?;
    match two_arguments(&matches) {
        Some((gates, cycles)) => large_words(gates, cycles, &matches),
        None => Err(WordNo::Usage),
    }
}

/// The word of a command, or none.
fn topic<'a>(
    alloc: Global,
    words: &'a [String],
    options: &'a [&'a str],
) -> Result<Option<Topic>, WordNo>
    requires { has_name (texts_in options.now) files_id ≡ false }
    ensures { Answers result (says (texts_in options.entry.now) of_topic (map string_bytes words.entry.now)) }
{
    let matches = parse(alloc, words, options)?;
    match perhaps_argument(&matches) {
        Some(word) => topic_named(word),
        None => Err(WordNo::Usage),
    }
}

/// The command of a word, where there is one.
fn topic_named(word: Option<&str>) -> Result<Option<Topic>, WordNo>
    ensures { Answers result (of_word (option_map (λ word. word.now) word.entry)) }
{
    match word {
        None => Ok(None),
        Some(word) => match topic_of(word.as_bytes()) {
            Some(topic) => Ok(Some(topic)),
            None => Err(WordNo::Usage),
        },
    }
}

/// What two files and the values of options ask for.
fn run_words(
    alloc: Global,
    netlist: &str,
    stimulus: &str,
    matches: &ArgMatches<'_>,
) -> Result<RunWords, WordNo>
    ensures { Answers result (run_by netlist.now stimulus.now (value_found matches.now)) }
{
    let Some((timing, banks, workers, homes)) = settings(alloc, matches) else {
        return Err(WordNo::Usage);
    };
    let (netlist, stimulus) = argument_texts(alloc, netlist, stimulus)?;
    let (machine, order, last, faults) = option_texts(alloc, matches)?;
    Ok(RunWords {
        netlist,
        stimulus,
        machine,
        order,
        last,
        timing,
        banks,
        workers,
        homes,
        faults,
    })
}

/// What the options say that name no file.
fn settings(alloc: Global, matches: &ArgMatches<'_>) -> Option<(Timing, u32, u32, HomeChoice)>
    ensures { result ≡ settings_by (value_found matches.now) }
{
    let banks = banks(matches)?;
    let workers = workers(matches)?;
    let homes = homes(matches)?;
    let timing = timing(alloc, matches)?;
    Some((timing, banks, workers, homes))
}

/// The names of two files as texts.
fn argument_texts(alloc: Global, netlist: &str, stimulus: &str) -> Result<(Text, Text), WordNo>
    ensures { MatchResult result (λ texts. (texts.0 ≡ netlist.now) × (texts.1 ≡ stimulus.now)) (λ no. no ≡ NoMemory) }
{
    let netlist = Text::from_bytes(alloc, netlist.as_bytes())?;
    let stimulus = Text::from_bytes(alloc, stimulus.as_bytes())?;
    Ok((netlist, stimulus))
}

/// The names of files that options give: of a machine, an order, a list of gates and a list of stuck faults.
fn option_texts(
    alloc: Global,
    matches: &ArgMatches<'_>,
) -> Result<(Option<Text>, Option<Text>, Option<Text>, Option<Text>), WordNo>
    ensures { MatchResult result (λ texts. (texts.0 ≡ value_found matches.now (codes "machine"))
        × (texts.1 ≡ value_found matches.now (codes "order")) × (texts.2 ≡ value_found matches.now (codes "last"))
        × (texts.3 ≡ value_found matches.now (codes "faults"))) (λ no. no ≡ NoMemory) }
{
    let machine = text(alloc, value(matches, "machine"))?;
    let order = text(alloc, value(matches, "order"))?;
    let last = text(alloc, value(matches, "last"))?;
    let faults = text(alloc, value(matches, "faults"))?;
    Ok((machine, order, last, faults))
}

/// What three files and the values of options ask for.
fn image_words(
    alloc: Global,
    netlist: &str,
    image: &str,
    stimulus: &str,
    matches: &ArgMatches<'_>,
) -> Result<Command, WordNo>
    ensures { Answers result (image_by netlist.now image.now stimulus.now (value_found matches.now)) }
{
    let image = Text::from_bytes(alloc, image.as_bytes())?;
    let words = run_words(alloc, netlist, stimulus, matches)?;
    Ok(Command::Exec { words, image })
}

/// What two numbers and the values of options ask for.
fn large_words(gates: &str, cycles: &str, matches: &ArgMatches<'_>) -> Result<Command, WordNo>
    ensures { Answers result (large_by gates.now cycles.now (value_found matches.now)) }
{
    let (Some(gates), Some(cycles), Some(workers)) = (
        gates_of(gates.as_bytes()),
        cycles_of(cycles.as_bytes()),
        workers(matches),
    ) else {
        return Err(WordNo::Usage);
    };
    Ok(Command::Large {
        gates,
        cycles,
        workers,
    })
}

/// The value of an option as a text, where it is given.
fn text(alloc: Global, value: Option<&str>) -> Result<Option<Text>, WordNo>
    ensures { MatchResult result (λ text. text ≡ option_map (λ value. value.now) value.entry) (λ no. no ≡ NoMemory) }
{
    match value {
        Some(value) => Ok(Some(Text::from_bytes(alloc, value.as_bytes())?)),
        None => Ok(None),
    }
}
