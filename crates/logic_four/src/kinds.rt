//! The words of the kinds, and how many operands each kind may have.

ghost use Rattle.std.specs.Prelude.{◌≡◌};
ghost use Rattle.logic_four.specs.Kinds.{kind_word, kind_of, allows_operands, ReadsInAnyCase, CanonicalWordsRead, BothWordsOfBuffers, WordsSayTheirKind};

use crate::Kind;
use limits::MAX_GATE_OPERANDS;

/// The word of a kind as a canonical text has it, in capital letters. That of `Buf` is `BUFF`.
pub fn word_of(kind: Kind) -> &'static [u8]
    ensures { result.now ≡ kind_word kind }
{
    match kind {
        Kind::And => b"AND",
        Kind::Nand => b"NAND",
        Kind::Or => b"OR",
        Kind::Nor => b"NOR",
        Kind::Xor => b"XOR",
        Kind::Xnor => b"XNOR",
        Kind::Not => b"NOT",
        Kind::Buf => b"BUFF",
        Kind::Tri => b"TRI",
        Kind::Bus => b"BUS",
    }
}

/// The kind that a word names, in any letter case. Both `BUF` and `BUFF` name `Buf`.
#[tactic(auto, unfolding(crate::specs::Kinds::kind_of))]
pub fn kind_of(word: &[u8]) -> Option<Kind>
    ensures { result ≡ kind_of word.now }
{
    if word.eq_ignore_ascii_case(b"AND") {
        Some(Kind::And)
    } else if word.eq_ignore_ascii_case(b"NAND") {
        Some(Kind::Nand)
    } else if word.eq_ignore_ascii_case(b"OR") {
        Some(Kind::Or)
    } else if word.eq_ignore_ascii_case(b"NOR") {
        Some(Kind::Nor)
    } else if word.eq_ignore_ascii_case(b"XOR") {
        Some(Kind::Xor)
    } else if word.eq_ignore_ascii_case(b"XNOR") {
        Some(Kind::Xnor)
    } else if word.eq_ignore_ascii_case(b"NOT") {
        Some(Kind::Not)
    } else if word.eq_ignore_ascii_case(b"BUF") || word.eq_ignore_ascii_case(b"BUFF") {
        Some(Kind::Buf)
    } else if word.eq_ignore_ascii_case(b"TRI") {
        Some(Kind::Tri)
    } else if word.eq_ignore_ascii_case(b"BUS") {
        Some(Kind::Bus)
    } else {
        None
    }
}

/// Whether a gate of this kind may have so many operands: 1 to 1,024 (this project's profile), but
/// exactly 1 for `Not` and `Buf`, and exactly 2 for `Tri`.
pub fn allows(kind: Kind, operands: usize) -> bool
    ensures { result ≡ allows_operands kind operands }
{
    match kind {
        Kind::Not | Kind::Buf => operands == 1,
        Kind::Tri => operands == 2,
        _ => operands >= 1 && operands <= MAX_GATE_OPERANDS,
    }
}

/// Laws: the words of kinds read back, in any letter case, and a word that reads as a kind is one of
/// that kind's words. It does nothing.
pub fn kind_words()
    ensures any_case { ReadsInAnyCase }
    ensures canonical { CanonicalWordsRead }
    ensures buffers { BothWordsOfBuffers }
    ensures says { WordsSayTheirKind }
{}
