//! What a byte is, and a text cut at the first of a byte.

ghost use Rattle.std.specs.{Prelude.◌≡◌, Prelude.◌==◌, List.position, Option.option_map};
ghost use Rattle.text_lines.specs.Bytes.{cut_at};
ghost use Rattle.text_lines.specs.Bytes as byte_specs;

/// Whether the byte is a blank: a space or a tab.
#[tactic(auto, unfolding(crate::specs::Bytes::is_blank))]
pub fn is_blank(byte: u8) -> bool
    ensures { result ≡ byte_specs.is_blank byte }
{
    byte == b' ' || byte == b'\t'
}

/// Whether the byte is from 0x21 to 0x7E: a character of ASCII that is seen.
#[tactic(auto, unfolding(crate::specs::Bytes::is_visible))]
pub fn is_visible(byte: u8) -> bool
    ensures { result ≡ byte_specs.is_visible byte }
{
    byte.is_ascii_graphic()
}

/// What stands before the first `byte` of the text, and what stands after it; `None` where the
/// text has no such byte.
pub fn split_once(text: &[u8], byte: u8) -> Option<(&[u8], &[u8])>
    ensures { option_map (λ parts. (parts.0.now, parts.1.now)) result ≡ cut_at byte text.now }
{
    match find_byte(text, byte) {
        Some(place) => Some((&text[..place], &text[place + 1..])),
        None => None,
    }
}

fn find_byte(text: &[u8], byte: u8) -> Option<usize>
    ensures { result ≡ position (λ b. b == byte) text.now }
{
    text.iter().position(|b| *b == byte)
}
