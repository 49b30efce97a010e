//! Values packed into words of 64 bits, 32 to a word.

ghost use Rattle.std.specs.Prelude.{◌≡◌, ◌≢◌, ◌*◌, ◌<◌, ℕ, length, slice_index};
ghost use Rattle.logic_four.specs.{Values.code_of, Values.value_of, Packed.code_in, Packed.packed_value};

use crate::{V4, code, decoded};

/// The values in one word.
pub const PER_WORD: usize = 32;

/// A word whose places all have the code 1.
const ONES: u64 = 0x5555_5555_5555_5555;

/// The value in the place `i` of a word.
pub fn value_in(word: u64, i: usize) -> V4
    requires { i < 32 }
    ensures { result ≡ value_of (code_in word i) }
{
    decoded(word >> (2 * i))
}

/// The word with another value in the place `i`.
pub fn with_value(word: u64, i: usize, v: V4) -> u64
    requires { i < 32 }
    ensures here { code_in result i ≡ code_of v }
    ensures others { (k : ℕ) → k < 32 → k ≢ i → code_in result k ≡ code_in word k }
{
    (word & !(3 << (2 * i))) | (code(v) << (2 * i))
}

/// The word whose places all have this value.
pub fn filled(v: V4) -> u64
    ensures { (k : ℕ) → k < 32 → code_in result k ≡ code_of v }
{
    code(v) * ONES
}

/// The value in a place of a list of words. Place `e` is place `e % 32` of word `e / 32`.
#[tactic(auto, unfolding(crate::specs::Packed::packed_value))]
pub fn value(words: &[u64], place: usize) -> V4
    requires { place < 32 * length words.now }
    ensures { result ≡ packed_value words.now place }
{
    value_in(words[place / PER_WORD], place % PER_WORD)
}

/// Puts another value in a place of a list of words.
pub fn put(words: &mut [u64], place: usize, v: V4)
    requires { place < 32 * length words.old }
    ensures as_long { length words.new ≡ length words.old }
    ensures here { packed_value words.new place ≡ v }
    ensures others { (other : ℕ) → other ≢ place → packed_value words.new other ≡ packed_value words.old other }
{
    let word = &mut words[place / PER_WORD];
    *word = with_value(*word, place % PER_WORD, v);
}

/// A law: a word is its 32 codes. It does nothing.
pub fn codes_decide(word: u64, other: u64)
    ensures { ((k : ℕ) → k < 32 → code_in word k ≡ code_in other k) → word ≡ other }
{}
