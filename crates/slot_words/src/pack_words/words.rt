//! The words of packed sends.

ghost use Rattle.std.specs.Prelude.{◌≡◌};
ghost use Rattle.slot_words.specs.{code.PackedWords.IsPlanesOf, packed.Words.packed};

use lane_planes::Planes;
use limits::LANES;

/// What a `take` found.
#[derive(Clone, Copy, PartialEq, Eq)]
pub enum PackTaken {
    /// The sender's values of this turn, one a lane.
    Value(Planes),
    /// The word is of a turn before.
    NotYet,
}

/// The word of planes in a turn: the turn modulo 16 in its four lower bits, and above them the planes of a
/// bit a lane each, the lower one first.
#[inline]
pub fn packed_word(turn: u64, planes: Planes) -> u64
    ensures { result ≡ packed turn planes }
{
    turn % 16 + 16 * planes.low as u64 + (1 << (LANES + 4)) * planes.high as u64
}

/// The planes of a word.
#[inline]
pub(crate) fn planes_of(word: u64) -> Planes
    ensures { IsPlanesOf word result }
{
    Planes {
        low: (word / 16 % (1 << LANES)) as u32,
        high: (word / (1 << (LANES + 4))) as u32,
    }
}
