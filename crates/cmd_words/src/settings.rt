//! What the values of options say.

ghost use Rattle.std.specs.Prelude.{◌≡◌, option_map};
ghost use Rattle.cmd_words.specs.Settings.{count_of, count_or, mode_of, init_of, allows_units, allows_list, timing_with, timing_by, banks_by, workers_by, homes_of, homes_by, gates_of, cycles_of};
ghost use Rattle.cmd_words.specs.code.Parses.{value_found};

use crate::parsing::value;
use clap::ArgMatches;
use limits::{
    DEFAULT_BANKS, DEFAULT_UNITS, DEFAULT_WORKERS, MAX_BANKS, MAX_LARGE_CYCLES, MAX_LARGE_GATES,
    MAX_UNITS, MAX_WORKERS,
};
use net_defs::{HomeChoice, Init, Mode, Timing};
use std::alloc::Global;
use text_lines::numbers::number_within;

/// The most digits of a number among the words.
const MAX_DIGITS: usize = 10;

/// The timing that the options say.
pub fn timing(alloc: Global, matches: &ArgMatches<'_>) -> Option<Timing>
    ensures { result ≡ timing_by (value_found matches.now) }
{
    let mode = mode_of(value(matches, "mode"));
    let units = count_or(value(matches, "units"), MAX_UNITS, DEFAULT_UNITS);
    let init = init_of(value(matches, "init"));
    timing_with(alloc, mode, units, init, value(matches, "last"))
}

/// The words that the crossbar is to have for each send.
pub fn banks(matches: &ArgMatches<'_>) -> Option<u32>
    ensures { result ≡ banks_by (value_found matches.now) }
{
    count_or(value(matches, "banks"), MAX_BANKS, DEFAULT_BANKS)
}

/// The workers that are to step the machine's ports.
pub fn workers(matches: &ArgMatches<'_>) -> Option<u32>
    ensures { result ≡ workers_by (value_found matches.now) }
{
    count_or(value(matches, "workers"), MAX_WORKERS, DEFAULT_WORKERS)
}

/// The homes that the nodes are to get.
pub fn homes(matches: &ArgMatches<'_>) -> Option<HomeChoice>
    ensures { result ≡ homes_by (value_found matches.now) }
{
    homes_of(value(matches, "homes"))
}

/// The gates of a generated design.
pub fn gates_of(digits: &[u8]) -> Option<u32>
    ensures { result ≡ gates_of digits.now }
{
    count_of(digits, MAX_LARGE_GATES)
}

/// The cycles that a generated design is to run for.
pub fn cycles_of(digits: &[u8]) -> Option<u32>
    ensures { result ≡ cycles_of digits.now }
{
    count_of(digits, MAX_LARGE_CYCLES)
}

fn timing_with(
    alloc: Global,
    mode: Option<Mode>,
    units: Option<u32>,
    init: Option<Init>,
    file: Option<&str>,
) -> Option<Timing>
    ensures { result ≡ timing_with mode units init (option_map (λ text. text.now) file.entry) }
{
    let (mode, units, init) = (mode?, units?, init?);
    if allows_units(mode, units) && allows_list(mode, file) {
        Some(Timing::unlisted(alloc, mode, units, init))
    } else {
        None
    }
}

/// In rank order a cycle is one turn.
fn allows_units(mode: Mode, units: u32) -> bool
    ensures { result ≡ allows_units mode units }
{
    match mode {
        Mode::Rank => units == 1,
        Mode::Unit => true,
        Mode::Mixed => true,
    }
}

/// Exactly in mixed mode a list of gates is named.
fn allows_list(mode: Mode, file: Option<&str>) -> bool
    ensures { result ≡ allows_list mode (option_map (λ text. text.now) file.entry) }
{
    match mode {
        Mode::Rank => file.is_none(),
        Mode::Unit => file.is_none(),
        Mode::Mixed => file.is_some(),
    }
}

fn mode_of(value: Option<&str>) -> Option<Mode>
    ensures { result ≡ mode_of (option_map (λ text. text.now) value.entry) }
{
    let Some(value) = value else {
        return Some(Mode::Rank);
    };
    if value == "rank" {
        Some(Mode::Rank)
    } else if value == "unit" {
        Some(Mode::Unit)
    } else if value == "mixed" {
        Some(Mode::Mixed)
    } else {
        None
    }
}

fn init_of(value: Option<&str>) -> Option<Init>
    ensures { result ≡ init_of (option_map (λ text. text.now) value.entry) }
{
    let Some(value) = value else {
        return Some(Init::Undef);
    };
    if value == "x" {
        Some(Init::Undef)
    } else if value == "0" {
        Some(Init::Zero)
    } else {
        None
    }
}

fn homes_of(value: Option<&str>) -> Option<HomeChoice>
    ensures { result ≡ homes_of (option_map (λ text. text.now) value.entry) }
{
    let Some(value) = value else {
        return Some(HomeChoice::Plain);
    };
    if value == "plain" {
        Some(HomeChoice::Plain)
    } else if value == "better" {
        Some(HomeChoice::Better)
    } else {
        None
    }
}

/// The number that is given, and `missing` where none is.
fn count_or(value: Option<&str>, most: u32, missing: u32) -> Option<u32>
    ensures { result ≡ count_or most missing (option_map (λ text. text.now) value.entry) }
{
    match value {
        Some(digits) => count_of(digits.as_bytes(), most),
        None => Some(missing),
    }
}

/// A number of at most ten digits, from 1 to `most`.
fn count_of(digits: &[u8], most: u32) -> Option<u32>
    ensures { result ≡ count_of most digits.now }
{
    if digits.len() <= MAX_DIGITS {
        number_within(digits, 1, most)
    } else {
        None
    }
}
