//! A bit for each lane, in a vector of words.

ghost use Rattle.std.specs.Prelude.{◌≡◌, ◌≢◌, ◌+◌, ◌-◌, ◌%◌, ◌<◌, ℕ, length, min, max};
ghost use Rattle.std.specs.Int.{bit_at};
ghost use Rattle.wide_planes.specs.{declared.TheConstants.WIDE_LANES, Lanes.bit_of};

use crate::planes::Words;
use std::simd::u32x8;

/// The bits of a word.
const BITS: u32 = 32;

impl Words {
    /// The same bit in each lane.
    #[inline]
    pub fn all(bit: u32) -> Words
        requires { bit < 2 }
        ensures { (k : ℕ) → k < WIDE_LANES → bit_of result k ≡ bit }
    {
        Words {
            words: u32x8::splat(bit * u32::MAX),
        }
    }

    /// 1 where both are 1.
    #[inline]
    pub fn and(self, other: Words) -> Words
        ensures { (k : ℕ) → k < WIDE_LANES → bit_of result k ≡ min (bit_of self k) (bit_of other k) }
    {
        Words {
            words: self.words & other.words,
        }
    }

    /// 1 where one of them is 1.
    #[inline]
    pub fn or(self, other: Words) -> Words
        ensures { (k : ℕ) → k < WIDE_LANES → bit_of result k ≡ max (bit_of self k) (bit_of other k) }
    {
        Words {
            words: self.words | other.words,
        }
    }

    /// 1 where they differ.
    #[inline]
    pub fn xor(self, other: Words) -> Words
        ensures { (k : ℕ) → k < WIDE_LANES → bit_of result k ≡ (bit_of self k + bit_of other k) % 2 }
    {
        Words {
            words: self.words ^ other.words,
        }
    }

    /// 1 where it is 0.
    #[inline]
    pub fn inverse(self) -> Words
        ensures { (k : ℕ) → k < WIDE_LANES → bit_of result k ≡ 1 - bit_of self k }
    {
        Words {
            words: self.words ^ u32x8::splat(u32::MAX),
        }
    }

    /// 1 where this is 1 and the other 0.
    #[inline]
    pub fn without(self, other: Words) -> Words
        ensures { (k : ℕ) → k < WIDE_LANES → bit_of result k ≡ min (bit_of self k) (1 - bit_of other k) }
    {
        self.and(other.inverse())
    }

    /// The bit of a lane.
    #[inline]
    pub fn bit(self, k: u32) -> u32
        requires { k < WIDE_LANES }
        ensures { result ≡ bit_of self k }
    {
        let words = self.words.to_array();
        (words[(k / BITS) as usize] >> (k % BITS)) & 1
    }

    /// Another bit in a lane.
    #[inline]
    pub fn with_bit(self, k: u32, bit: u32) -> Words
        requires lane { k < WIDE_LANES }
        requires bit { bit < 2 }
        ensures here { bit_of result k ≡ bit }
        ensures others { (j : ℕ) → j < WIDE_LANES → j ≢ k → bit_of result j ≡ bit_of self j }
    {
        let mut words = self.words.to_array();
        let place = (k / BITS) as usize;
        words[place] = with_bit(words[place], k % BITS, bit);
        Words {
            words: u32x8::from_array(words),
        }
    }
}

/// The word with another bit in a place.
#[inline]
fn with_bit(word: u32, k: u32, bit: u32) -> u32
    requires place { k < 32 }
    requires bit { bit < 2 }
    ensures here { bit_at result k ≡ bit }
    ensures others { (j : ℕ) → j < 32 → j ≢ k → bit_at result j ≡ bit_at word j }
{
    (word & !(1 << k)) | (bit << k)
}
