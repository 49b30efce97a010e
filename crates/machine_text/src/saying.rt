//! What the lines of a machine text say.

ghost use Rattle.std.specs.Prelude.{◌≡◌, ◌<◌, ◌^◌, None, length};
ghost use Rattle.std.specs.{List.enumerate_from, Iterator.YieldsFirst, Iterator.item_count};
ghost use Rattle.text_lines.specs.{Lines.parts_of, Words.words_of};
ghost use Rattle.machine_text.specs.Settings.{announces_two, limit_by, limited_by, line_says, set_by, settled, words_say};
ghost use Rattle.machine_text.specs.code.Sayings.{no_words, said_lines};

use crate::digits::Digits;
use crate::machine::Limited;
use crate::quantity::{Quantity, Version};
use std::marker::Model;
use text_lines::numbers::number_within;
use text_lines::{Lines, Words};

/// A quantity that a line sets for all ports, and its number.
#[derive(Clone, Copy)]
pub struct Setting {
    pub quantity: Quantity,
    pub value: u32,
}

/// What a line says outside its comment.
#[derive(Drop)]
pub enum Says<'a> {
    /// It is blank, or it announces the version of the text.
    Nothing,
    /// It gives a quantity a number for all ports.
    Sets {
        quantity: Quantity,
        number: Digits<'a>,
    },
    /// It gives a limit of one port.
    Limits {
        what: Limited,
        port: Digits<'a>,
        number: Digits<'a>,
    },
    /// It has none of the forms.
    Other,
}

/// What the lines of a text say in order, each with its number, counted from 1. A contract sees the
/// list of what the lines say that are left.
#[derive(Drop)]
pub struct Sayings<'a> {
    lines: Lines<'a>,
    version: Option<Version>,
}

impl<'a> Model for Sayings<'a> {
    ghost use Rattle.std.specs.Prelude.{List as Items, ℕ};
    ghost use Rattle.machine_text.specs.{declared.saying.Says.Says, code.Sayings.said_lines};

    ghost Value = { Items (ℕ × Says) };

    ghost view = { λ s. said_lines s.version s.lines };
}

impl<'a> Sayings<'a> {
    /// What all lines of the text say.
    pub fn new(text: &'a [u8]) -> Sayings<'a>
        requires { length text.now < 2 ^ 32 }
        ensures { result ≡ said_lines None (enumerate_from 1 (parts_of text.now)) }
    {
        Sayings {
            lines: Lines::new(text),
            version: None,
        }
    }
}

impl<'a> Iterator for Sayings<'a> {
    type Item = (u32, Says<'a>);

    ghost next_gives = { YieldsFirst (λ left. left) };

    ghost remaining = { item_count (λ left. left) };

    #[tactic(auto, unfolding(crate::specs::code::Sayings::said_lines))]
    fn next(&mut self) -> Option<(u32, Says<'a>)> {
        let (line, part) = self.lines.next()?;
        let version = self.version;
        self.version = settled(version, part);
        Some((line, line_said(version, part)))
    }
}

/// The version of the text, if the line or an earlier one settles it.
fn settled(version: Option<Version>, part: &[u8]) -> Option<Version>
    ensures { result ≡ settled version (words_of part.now) }
{
    if version.is_some() || is_blank(part) {
        version
    } else if announces_two(part) {
        Some(Version::Two)
    } else {
        Some(Version::One)
    }
}

/// What a line says after lines that settled this.
fn line_said(version: Option<Version>, part: &[u8]) -> Says<'_>
    ensures { result ≡ line_says version (words_of part.now) }
{
    match version {
        Some(version) => words_said(version, part),
        None => {
            if announces_two(part) {
                Says::Nothing
            } else {
                words_said(Version::One, part)
            }
        }
    }
}

/// Whether there are no words in the line.
fn is_blank(part: &[u8]) -> bool
    ensures { result ≡ no_words (words_of part.now) }
{
    Words::new(part).next().is_none()
}

/// Whether the line announces version 2.
fn announces_two(part: &[u8]) -> bool
    ensures { result ≡ announces_two (words_of part.now) }
{
    let mut words = Words::new(part);
    match (words.next(), words.next(), words.next()) {
        (Some(word), Some(number), None) => {
            word.eq_ignore_ascii_case(b"version") && number_within(number, 2, 2).is_some()
        }
        _ => false,
    }
}

/// What the words of a line say in a text of the version.
fn words_said(version: Version, part: &[u8]) -> Says<'_>
    ensures { result ≡ words_say version (words_of part.now) }
{
    let mut words = Words::new(part);
    let Some(word) = words.next() else {
        return Says::Nothing;
    };
    let Some(first) = words.next() else {
        return Says::Other;
    };
    let Some(second) = words.next() else {
        return set_by(version, Quantity::named(word), Digits::read(first));
    };
    if version == Version::One || words.next().is_some() {
        return Says::Other;
    }
    limit_by(
        limited_by(Quantity::named(word)),
        Digits::read(first),
        Digits::read(second),
    )
}

/// What a word and a number say.
fn set_by<'a>(version: Version, quantity: Option<Quantity>, number: Option<Digits<'a>>) -> Says<'a>
    ensures { result ≡ set_by version quantity number.entry }
{
    match (quantity, number) {
        (Some(quantity), Some(number)) if quantity.is_word(version) => {
            Says::Sets { quantity, number }
        }
        _ => Says::Other,
    }
}

/// What a word, a port and a number say.
fn limit_by<'a>(
    what: Option<Limited>,
    port: Option<Digits<'a>>,
    number: Option<Digits<'a>>,
) -> Says<'a>
    ensures { result ≡ limit_by what port.entry number.entry }
{
    match (what, port, number) {
        (Some(what), Some(port), Some(number)) => Says::Limits { what, port, number },
        _ => Says::Other,
    }
}

fn limited_by(quantity: Option<Quantity>) -> Option<Limited>
    ensures { result ≡ limited_by quantity }
{
    quantity?.per_port()
}
