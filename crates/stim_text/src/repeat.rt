//! The repeat that a line may end with.

ghost use Rattle.std.specs.Prelude.{◌≡◌, ◌≤◌, ◌-◌, ◌^◌, min, length};
ghost use Rattle.std.specs.Option.{option_map};
ghost use Rattle.text_lines.specs.Words.{words_of};
ghost use Rattle.stim_text.specs.Repeats.{is_blank_part, before_repeat, repeat_of, repeat_in, only_word, number_in};

use limits::MAX_REPEAT;
use text_lines::Words;
use text_lines::bytes::{is_blank, split_once};
use text_lines::numbers::{number, number_within};

/// Whether the part of a line has blanks alone.
#[tactic(auto, unfolding(crate::specs::Repeats::is_blank_part))]
pub fn is_blank_part(part: &[u8]) -> bool
    ensures { result ≡ is_blank_part part.now }
{
    part.iter().all(|byte| is_blank(*byte))
}

/// What stands before the repeat of a line, and the repeat, if that is an allowed one.
#[tactic(auto, unfolding(crate::specs::Repeats::before_repeat, crate::specs::Repeats::repeat_of))]
pub fn cut_repeat(part: &[u8]) -> (&[u8], Option<u32>)
    ensures before { result.0.now ≡ before_repeat part.now }
    ensures repeat { result.1 ≡ repeat_of part.now }
    ensures shorter { length result.0.now ≤ length part.now }
{
    match split_once(part, b'*') {
        Some((before, repeat)) => (before, repeat_in(repeat)),
        None => (part, Some(1)),
    }
}

/// The number that the text is, with blanks around. One that is too large for a `u64` is read as the
/// greatest `u64`.
#[tactic(auto, unfolding(crate::specs::Repeats::number_in))]
pub fn number_in(text: &[u8]) -> Option<u64>
    ensures { result ≡ option_map (λ n. min n (2 ^ 64 - 1)) (number_in text.now) }
{
    match only_word(text) {
        Some(word) => number(word),
        None => None,
    }
}

/// The number of 1 to 1,000,000 that the text is, with blanks around.
#[tactic(auto, unfolding(crate::specs::Repeats::number_in))]
fn repeat_in(text: &[u8]) -> Option<u32>
    ensures { result ≡ repeat_in text.now }
{
    match only_word(text) {
        Some(word) => number_within(word, 1, MAX_REPEAT),
        None => None,
    }
}

/// The word of a text that has just one.
pub fn only_word(text: &[u8]) -> Option<&[u8]>
    ensures { option_map (λ word. word.now) result ≡ only_word (words_of text.now) }
{
    let mut words = Words::new(text);
    let word = words.next()?;
    if words.next().is_some() {
        return None;
    }
    Some(word)
}
