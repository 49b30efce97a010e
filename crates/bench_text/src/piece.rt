//! The marks and names of a line, one taken off the front after another.

ghost use Rattle.std.specs.Prelude.{◌≡◌, ◌≤◌, length, drop};
ghost use Rattle.std.specs.{List.prefix_len, Option.option_map};
ghost use Rattle.text_lines.specs.Names.{is_name_byte as is_name};
ghost use Rattle.bench_text.specs.Bytes as byte_specs;
ghost use Rattle.bench_text.specs.{Rows.pieces_of, code.Parts.without_filler};
ghost use Rattle.bench_text.specs.code.Parts as specs;
ghost use Rattle.bench_text.specs.Decoding as steps;

use crate::{Class, Mark, class_of, is_name_byte};

/// The part behind this mark, where it comes next.
pub fn take_sign(mark: Mark, part: &[u8]) -> Option<&[u8]>
    ensures { option_map (λ rest. pieces_of rest.now) result ≡ steps.take_sign mark (pieces_of part.now) }
{
    match skip(part) {
        [byte, rest @ ..] => {
            if is_sign(mark, *byte) {
                Some(rest)
            } else {
                None
            }
        }
        [] => None,
    }
}

/// The name that comes next, and the part behind it.
pub fn take_word(part: &[u8]) -> Option<(&[u8], &[u8])>
    ensures { option_map (λ taken. (taken.0.now, pieces_of taken.1.now)) result ≡ steps.take_word (pieces_of part.now) }
{
    let part = skip(part);
    let len = name_len(part);
    if len == 0 {
        None
    } else {
        Some((&part[..len], &part[len..]))
    }
}

/// Whether the part has no further mark or name.
pub fn no_more(part: &[u8]) -> bool
    ensures { result ≡ steps.no_more (pieces_of part.now) }
{
    skip(part).is_empty()
}

/// The part from its first mark or name on.
fn skip(part: &[u8]) -> &[u8]
    ensures { result.now ≡ without_filler part.now }
{
    &part[filler_len(part)..]
}

fn filler_len(part: &[u8]) -> usize
    ensures value { result ≡ prefix_len specs.is_filler part.now }
    ensures within { result ≤ length part.now }
{
    part.iter().take_while(|byte| is_filler(**byte)).count()
}

fn name_len(part: &[u8]) -> usize
    ensures value { result ≡ prefix_len is_name part.now }
    ensures within { result ≤ length part.now }
{
    part.iter().take_while(|byte| is_name_byte(**byte)).count()
}

/// Whether the byte is no mark and of no name.
#[tactic(auto, unfolding(crate::specs::code::Parts::is_filler, crate::specs::Bytes::class_of, crate::specs::Bytes::sign_of, text_lines::specs::Names::is_name_byte, text_lines::specs::Names::is_mark))]
fn is_filler(byte: u8) -> bool
    ensures { result ≡ specs.is_filler byte }
{
    !matches!(class_of(byte), Class::Name | Class::Sign(_))
}

/// Whether the byte is this mark.
#[tactic(auto, unfolding(crate::specs::Bytes::class_of))]
fn is_sign(mark: Mark, byte: u8) -> bool
    ensures { result ≡ specs.is_this mark (byte_specs.sign_of byte) }
{
    match class_of(byte) {
        Class::Sign(other) => other == mark,
        _ => false,
    }
}
