//! What a byte is, by a table.

ghost use Rattle.std.specs.Prelude.{◌≡◌};
ghost use Rattle.text_lines.specs.Names.{is_name_byte as is_name};
ghost use Rattle.bench_text.specs.Bytes as byte_specs;

use crate::class::Class::{Bad, Blank, Feed, Hash, Name, Return, Sign};
use crate::token::Mark;
use crate::token::Mark::{Close, Comma, Equals, Left, Open, Right, Semi};

/// What a byte is in a netlist text.
#[derive(Clone, Copy)]
pub enum Class {
    /// A byte that may stand in a name.
    Name,
    /// A byte that is a token by itself.
    Sign(Mark),
    /// A space or a tab.
    Blank,
    /// LF.
    Feed,
    /// CR.
    Return,
    /// `#`, which begins a comment.
    Hash,
    /// Any other byte.
    Bad,
}

/// The class of each byte.
#[rattlefmt::skip]
static CLASSES: [Class; 256] = [
    Bad, Bad, Bad, Bad, Bad, Bad, Bad, Bad, Bad, Blank, Feed, Bad, Bad, Return, Bad, Bad,
    Bad, Bad, Bad, Bad, Bad, Bad, Bad, Bad, Bad, Bad, Bad, Bad, Bad, Bad, Bad, Bad,
    Blank, Name, Name, Hash, Name, Name, Name, Name,
    Sign(Open), Sign(Close), Name, Name, Sign(Comma), Name, Name, Name,
    Name, Name, Name, Name, Name, Name, Name, Name, Name, Name, Name, Sign(Semi), Name, Sign(Equals), Name, Name,
    Name, Name, Name, Name, Name, Name, Name, Name, Name, Name, Name, Name, Name, Name, Name, Name,
    Name, Name, Name, Name, Name, Name, Name, Name, Name, Name, Name, Sign(Left), Name, Sign(Right), Name, Name,
    Name, Name, Name, Name, Name, Name, Name, Name, Name, Name, Name, Name, Name, Name, Name, Name,
    Name, Name, Name, Name, Name, Name, Name, Name, Name, Name, Name, Name, Name, Name, Name, Bad,
    Bad, Bad, Bad, Bad, Bad, Bad, Bad, Bad, Bad, Bad, Bad, Bad, Bad, Bad, Bad, Bad,
    Bad, Bad, Bad, Bad, Bad, Bad, Bad, Bad, Bad, Bad, Bad, Bad, Bad, Bad, Bad, Bad,
    Bad, Bad, Bad, Bad, Bad, Bad, Bad, Bad, Bad, Bad, Bad, Bad, Bad, Bad, Bad, Bad,
    Bad, Bad, Bad, Bad, Bad, Bad, Bad, Bad, Bad, Bad, Bad, Bad, Bad, Bad, Bad, Bad,
    Bad, Bad, Bad, Bad, Bad, Bad, Bad, Bad, Bad, Bad, Bad, Bad, Bad, Bad, Bad, Bad,
    Bad, Bad, Bad, Bad, Bad, Bad, Bad, Bad, Bad, Bad, Bad, Bad, Bad, Bad, Bad, Bad,
    Bad, Bad, Bad, Bad, Bad, Bad, Bad, Bad, Bad, Bad, Bad, Bad, Bad, Bad, Bad, Bad,
    Bad, Bad, Bad, Bad, Bad, Bad, Bad, Bad, Bad, Bad, Bad, Bad, Bad, Bad, Bad, Bad,
];

/// The class of a byte.
#[inline(always)]
pub fn class_of(byte: u8) -> Class
    ensures { result ≡ byte_specs.class_of byte }
{
    CLASSES[usize::from(byte)]
}

/// Whether the byte may stand in a name.
#[tactic(auto, unfolding(crate::specs::Bytes::class_of, crate::specs::Bytes::sign_of, text_lines::specs::Names::is_name_byte, text_lines::specs::Names::is_mark))]
#[inline(always)]
pub fn is_name_byte(byte: u8) -> bool
    ensures { result ≡ is_name byte }
{
    matches!(class_of(byte), Class::Name)
}
