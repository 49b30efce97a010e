//! Tokens, and why a text has none.

use seen_list::{List, Memory};

/// What a token is.
#[derive(Clone, Copy, PartialEq, Eq)]
pub enum Mark {
    /// `(`
    Open,
    /// `)`
    Close,
    /// `,`
    Comma,
    /// `=`
    Equals,
    /// `;`
    Semi,
    /// `[`
    Left,
    /// `]`
    Right,
    /// A name.
    Name,
}

/// A token of a text: its bytes are those from place `from` up to place `upto`, counted from 0,
/// and they stand in line `line`, counted from 1.
#[derive(Clone, Copy)]
pub struct Token {
    pub mark: Mark,
    pub from: u32,
    pub upto: u32,
    pub line: u32,
}

/// The tokens of a text in order.
#[derive(Drop)]
pub struct Tokens {
    pub list: List<Token>,
}

/// Why a text has no tokens. Lines and columns are counted from 1, columns in bytes.
#[derive(Clone, Copy, Debug, PartialEq, Eq)]
pub enum TextNo {
    /// A byte outside a comment is no blank, no line end and not from 0x21 to 0x7E.
    BadByte { line: u32, column: u32 },
    /// A name has more than 255 bytes.
    LongName { line: u32 },
    /// There was not enough memory for the tokens.
    Memory,
}

impl From<Memory> for TextNo {
    ghost use Rattle.std.specs.Prelude.{◌≡◌};
    ghost use Rattle.bench_text.specs.declared.token.TextNo.TheVariants.{Memory as NoMemory};

    ghost from_gives = { λ _ e. e ≡ NoMemory };

    fn from(_refused: Memory) -> TextNo {
        TextNo::Memory
    }
}
