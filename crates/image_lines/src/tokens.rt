//! Single tokens. Beside the value of a token stands whether a number in it is too large.

ghost use Rattle.std.specs.Prelude.{◌≡◌, ℕ, Bool, List as Items, Option, min, Some, None, if◌then◌else◌};
ghost use Rattle.std.specs.{List.list_all, Option.option_map};
ghost use Rattle.image_lines.specs.Tokens.{plain_number, number_token, source_token, lettered, value_letter, init_token, kind_token, hex_token, is_hex, hex_value, hex_value_of};

use crate::line::PortKind;
use crate::word::is_word;
use image_defs::Source;
use logic_four::V4;
use net_defs::Init;
use text_lines::numbers::number;

/// What single tokens are read as.
pub(crate) trait Token: Drop {
    // the value of a token, and whether a number in it is too large
    ghost read: { Items ℕ → Option (Self × Bool) };

    /// The value of the token, and whether a number in it is too large.
    fn read(token: &[u8]) -> Option<(Self, bool)>
        ensures { result ≡ read token.now };
}

impl Token for u32 {
    ghost use Rattle.image_lines.specs.Tokens.{number_token};

    ghost read = { number_token };

    fn read(token: &[u8]) -> Option<(u32, bool)> {
        number_token(token)
    }
}

impl Token for u64 {
    ghost use Rattle.image_lines.specs.Tokens.{hex_token};

    ghost read = { hex_token };

    fn read(token: &[u8]) -> Option<(u64, bool)> {
        hex_token(token)
    }
}

impl Token for Source {
    ghost use Rattle.image_lines.specs.Tokens.{source_token};

    ghost read = { source_token };

    fn read(token: &[u8]) -> Option<(Source, bool)> {
        source_token(token)
    }
}

impl Token for Init {
    ghost use Rattle.image_lines.specs.Tokens.{init_token};

    ghost read = { init_token };

    fn read(token: &[u8]) -> Option<(Init, bool)> {
        init_token(token)
    }
}

impl Token for PortKind {
    ghost use Rattle.image_lines.specs.Tokens.{kind_token};

    ghost read = { kind_token };

    fn read(token: &[u8]) -> Option<(PortKind, bool)> {
        kind_token(token)
    }
}

/// The number, of any size, without leading zeros. One that is too large for a `u64` is read as the
/// greatest `u64`.
#[tactic(auto, unfolding(crate::specs::Tokens::plain_number))]
fn plain_number(token: &[u8]) -> Option<u64>
    ensures { result ≡ option_map (λ n. min n u64.MAX) (plain_number token.now) }
{
    if token.len() > 1 && token[0] == b'0' {
        return None;
    }
    number(token)
}

/// A number, or the greatest `u32` in place of one that is too large.
#[tactic(auto, unfolding(crate::specs::Tokens::number_token))]
fn number_token(token: &[u8]) -> Option<(u32, bool)>
    ensures { result ≡ number_token token.now }
{
    match plain_number(token) {
        Some(value) if value <= u64::from(u32::MAX) => Some((value as u32, false)),
        Some(_value) => Some((u32::MAX, true)),
        None => None,
    }
}

/// A source: its letter, and a slot or a value.
#[tactic(auto, unfolding(crate::specs::Tokens::source_token))]
fn source_token(token: &[u8]) -> Option<(Source, bool)>
    ensures { result ≡ source_token token.now }
{
    match token {
        [letter, rest @ ..] => lettered(*letter, rest),
        [] => None,
    }
}

fn lettered(letter: u8, rest: &[u8]) -> Option<(Source, bool)>
    ensures { result ≡ lettered letter rest.now }
{
    if letter == b'c' {
        return match value_letter(rest) {
            Some(value) => Some((Source::Const(value), false)),
            None => None,
        };
    }
    let (slot, large) = number_token(rest)?;
    match letter {
        b'o' => Some((Source::Own { slot, last: false }, large)),
        b'O' => Some((Source::Own { slot, last: true }, large)),
        b'g' => Some((Source::Got { slot, last: false }, large)),
        b'G' => Some((Source::Got { slot, last: true }, large)),
        _ => None,
    }
}

/// The value of a letter.
fn value_letter(letters: &[u8]) -> Option<V4>
    ensures { result ≡ value_letter letters.now }
{
    match letters {
        [b'0'] => Some(V4::Zero),
        [b'1'] => Some(V4::One),
        [b'x'] => Some(V4::Undef),
        [b'z'] => Some(V4::HighZ),
        _ => None,
    }
}

/// What registers and memories hold at first.
#[tactic(auto, unfolding(crate::specs::Tokens::init_token))]
fn init_token(token: &[u8]) -> Option<(Init, bool)>
    ensures { result ≡ init_token token.now }
{
    if is_word(token, b"x") {
        Some((Init::Undef, false))
    } else if is_word(token, b"0") {
        Some((Init::Zero, false))
    } else {
        None
    }
}

/// The kind of a port.
#[tactic(auto, unfolding(crate::specs::Tokens::kind_token))]
fn kind_token(token: &[u8]) -> Option<(PortKind, bool)>
    ensures { result ≡ kind_token token.now }
{
    if is_word(token, b"logic") {
        Some((PortKind::Logic, false))
    } else if is_word(token, b"array") {
        Some((PortKind::Array, false))
    } else if is_word(token, b"host") {
        Some((PortKind::Host, false))
    } else {
        None
    }
}

/// A word of a table, of 16 digits.
#[tactic(auto, using(crate::proofs::HexLemmas::not_capped), unfolding(crate::specs::Tokens::hex_token))]
fn hex_token(token: &[u8]) -> Option<(u64, bool)>
    ensures { result ≡ hex_token token.now }
{
    if token.len() != 16 {
        return None;
    }
    match hex_value(token) {
        Some(value) => Some((value, false)),
        None => None,
    }
}

/// The value of hexadecimal digits in small letters. One that is too large is read as the greatest
/// `u64`.
fn hex_value(digits: &[u8]) -> Option<u64>
    ensures { result ≡ if list_all is_hex digits.now then Some (min (hex_value digits.now) u64.MAX) else None }
{
    let mut value = 0u64;
    for digit in digits {
        let worth = hex_worth(*digit)?;
        value = value.saturating_mul(16).saturating_add(worth);
    }
    Some(value)
}

/// What a hexadecimal digit is worth.
fn hex_worth(digit: u8) -> Option<u64>
    ensures { result ≡ if is_hex digit then Some (hex_value_of digit) else None }
{
    match digit {
        b'0'..=b'9' => Some(u64::from(digit - b'0')),
        b'a'..=b'f' => Some(u64::from(digit - b'a') + 10),
        _ => None,
    }
}
