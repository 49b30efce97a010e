//! The words behind the name of a command, parsed by one command of `clap`.

ghost use Rattle.std.specs.Prelude.{◌≡◌, false, [], map, bytes_eq, option_map, MatchResult, IfOk};
ghost use Rattle.std.specs.String.{string_bytes};
ghost use Rattle.clap.specs.Words.{app_of, kind_of, rule_of};
ghost use Rattle.cmd_words.specs.code.Parses.{files_id, files_rule, option_rule, app_with, one_of, perhaps_one_of, both_of, three_of, texts_in, has_no_short, is_short, arguments_found, value_found, IsParsedAs, refusal_of};
ghost use Rattle.cmd_words.specs.{Arguments.has_name, Asked.IsRefusal, Uses.parsed};

use crate::command::WordNo;
use clap::builder::ValueParser;
use clap::error::ErrorKind;
use clap::{Arg, ArgAction, ArgMatches, Command, Error};
use std::alloc::{AllocError, Global};

/// The id of the positional arguments. No option has this name.
const FILES: &str = "FILES";

/// Parses the words behind the name of a command that has these options.
pub fn parse<'a>(
    alloc: Global,
    words: &'a [String],
    options: &'a [&'a str],
) -> Result<ArgMatches<'a>, WordNo>
    requires { has_name (texts_in options.now) files_id ≡ false }
    ensures { MatchResult result (IsParsedAs (texts_in options.entry.now) (map string_bytes words.entry.now))
        (IsRefusal (parsed (texts_in options.entry.now) (map string_bytes words.entry.now))) }
{
    if !has_no_short(words) {
        return Err(WordNo::Usage);
    }
    let command = match command(alloc, options) {
        Ok(command) => command,
        Err(_) => return Err(WordNo::Memory),
    };
    match command.try_get_matches_from(words) {
        Ok(matches) => Ok(matches),
        Err(error) => Err(refusal(&error)),
    }
}

/// The value of an option of the command, where it is given.
pub fn value<'a>(matches: &ArgMatches<'a>, name: &str) -> Option<&'a str>
    requires { bytes_eq name.now files_id ≡ false }
    ensures { option_map (λ text. text.now) result ≡ value_found matches.now name.now }
{
    matches.get_str(name)
}

/// The two positional arguments, where there are so many.
pub fn two_arguments<'b, 'a>(matches: &'b ArgMatches<'a>) -> Option<(&'a str, &'a str)>
    ensures { option_map (λ both. (both.0.now, both.1.now)) result ≡ both_of (arguments_found matches.now) }
{
    match matches.get_strs(FILES) {
        Some([first, second]) => Some((*first, *second)),
        _ => None,
    }
}

/// The three positional arguments, where there are so many.
pub fn three_arguments<'b, 'a>(matches: &'b ArgMatches<'a>) -> Option<(&'a str, &'a str, &'a str)>
    ensures { option_map (λ three. (three.0.now, three.1.now, three.2.now)) result ≡ three_of (arguments_found matches.now) }
{
    match matches.get_strs(FILES) {
        Some([first, second, third]) => Some((*first, *second, *third)),
        _ => None,
    }
}

/// The one positional argument, where there is one.
pub fn one_argument<'b, 'a>(matches: &'b ArgMatches<'a>) -> Option<&'a str>
    ensures { option_map (λ one. one.now) result ≡ one_of (arguments_found matches.now) }
{
    match matches.get_strs(FILES) {
        Some([one]) => Some(*one),
        _ => None,
    }
}

/// No positional argument, or one.
pub fn perhaps_argument<'b, 'a>(matches: &'b ArgMatches<'a>) -> Option<Option<&'a str>>
    ensures { option_map (option_map (λ one. one.now)) result ≡ perhaps_one_of (arguments_found matches.now) }
{
    match matches.get_strs(FILES) {
        None | Some([]) => Some(None),
        Some([one]) => Some(Some(*one)),
        _ => None,
    }
}

/// Why a parse failed.
fn refusal(error: &Error) -> WordNo
    ensures { result ≡ refusal_of (kind_of error.now) }
{
    match error.kind() {
        ErrorKind::OutOfMemory => WordNo::Memory,
        _ => WordNo::Usage,
    }
}

/// The command with options of these names. It takes any number of positional arguments.
fn command<'a>(alloc: Global, options: &'a [&'a str]) -> Result<Command<'a>, AllocError>
    ensures { IfOk result (λ command. app_of command ≡ app_with (texts_in options.entry.now)) }
{
    let mut command = bare(alloc)?;
    for name in options {
        command = command.arg(option(alloc, *name))?;
    }
    Ok(command)
}

/// The command without options.
fn bare<'a>(alloc: Global) -> Result<Command<'a>, AllocError>
    ensures { IfOk result (λ command. app_of command ≡ app_with []) }
{
    Command::new(alloc, "yse")
        .no_binary_name(true)
        .disable_help_flag(true)
        .arg(files(alloc))
}

fn files<'a>(alloc: Global) -> Arg<'a>
    ensures rule { rule_of result ≡ files_rule }
    ensures local { result.global ≡ false }
{
    Arg::new(alloc, FILES)
        .action(ArgAction::Append)
        .value_parser(ValueParser::NonEmptyString)
}

fn option<'a>(alloc: Global, name: &'a str) -> Arg<'a>
    ensures rule { rule_of result ≡ option_rule name.entry.now }
    ensures local { result.global ≡ false }
{
    Arg::new(alloc, name)
        .long(name)
        .action(ArgAction::Set)
        .value_parser(ValueParser::NonEmptyString)
}

/// Whether no word before the first `--` begins with one `-` alone. `clap` takes a lone `-` for a
/// positional argument, or for a value.
#[tactic(auto, unfolding(crate::specs::code::Parses::has_no_short))]
fn has_no_short(words: &[String]) -> bool
    ensures { result ≡ has_no_short (map string_bytes words.now) }
{
    for word in words {
        if word.as_bytes() == b"--".as_slice() {
            return true;
        }
        if is_short(word.as_bytes()) {
            return false;
        }
    }
    true
}

fn is_short(word: &[u8]) -> bool
    ensures { result ≡ is_short word.now }
{
    match word {
        [] => false,
        [first] => *first == b'-',
        [first, second, ..] => *first == b'-' && *second != b'-',
    }
}
