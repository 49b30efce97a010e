//! Single values: settling, inverting, and their characters.

ghost use Rattle.std.specs.Prelude.{◌≡◌, ◌%◌, Some};
ghost use Rattle.logic_four.specs.Values.{settled, inverse, code_of, value_of, value_char, char_value};

use crate::V4;

/// The value that a gate takes from an operand: high impedance counts as undefined.
pub fn settle(v: V4) -> V4
    ensures { result ≡ settled v }
{
    match v {
        V4::HighZ => V4::Undef,
        settled => settled,
    }
}

/// The code of a value, 0 to 3, in the order of the variants.
pub fn code(v: V4) -> u64
    ensures { result ≡ code_of v }
{
    v as u64
}

/// The value of the code in the two lowest bits.
pub fn decoded(bits: u64) -> V4
    ensures { result ≡ value_of (bits % 4) }
{
    match bits & 3 {
        0 => V4::Zero,
        1 => V4::One,
        2 => V4::Undef,
        _ => V4::HighZ,
    }
}

/// The inverse of the settled value: 0 and 1 change places, and undefined stays.
pub fn not(v: V4) -> V4
    ensures { result ≡ inverse (settled v) }
{
    match v {
        V4::Zero => V4::One,
        V4::One => V4::Zero,
        V4::Undef | V4::HighZ => V4::Undef,
    }
}

/// The value that a character stands for, in either letter case.
pub fn of_char(c: u8) -> Option<V4>
    ensures { result ≡ char_value c }
{
    match c {
        b'0' => Some(V4::Zero),
        b'1' => Some(V4::One),
        b'x' | b'X' => Some(V4::Undef),
        b'z' | b'Z' => Some(V4::HighZ),
        _ => None,
    }
}

/// The character of a value, in lower case.
pub fn to_char(v: V4) -> u8
    ensures { result ≡ value_char v }
{
    match v {
        V4::Zero => b'0',
        V4::One => b'1',
        V4::Undef => b'x',
        V4::HighZ => b'z',
    }
}

/// A law: the character of a value reads back as that value.
pub fn char_round_trip(v: V4)
    ensures { char_value (value_char v) ≡ Some v }
{}
