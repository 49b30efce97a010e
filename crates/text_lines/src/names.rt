//! Names of signals.

ghost use Rattle.std.specs.Prelude.{◌≡◌};
ghost use Rattle.text_lines.specs.Names as name_specs;

use crate::bytes::is_visible;

/// Whether the byte may stand in a name.
#[tactic(auto, unfolding(crate::specs::Names::is_name_byte))]
pub fn is_name_byte(byte: u8) -> bool
    ensures { result ≡ name_specs.is_name_byte byte }
{
    is_visible(byte) && !is_mark(byte) && byte != b'#'
}

/// Whether the byte is a mark, which no name has.
#[tactic(auto, unfolding(crate::specs::Names::is_mark))]
pub fn is_mark(byte: u8) -> bool
    ensures { result ≡ name_specs.is_mark byte }
{
    matches!(byte, b'(' | b')' | b',' | b'=' | b';' | b'[' | b']')
}
