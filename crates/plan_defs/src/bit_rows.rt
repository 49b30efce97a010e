//! Rows of bits, all of one width, packed into words: sets of small numbers, one set a row, that are
//! filled bit by bit and looked through a word at a time.

ghost use Rattle.std.specs.Prelude.{◌≡◌, ◌+◌, ◌*◌, ◌<◌, ◌≤◌, ◌↔◌, ◌^◌, ℕ, IsTrue, IfOk, length, replicate};
ghost use Rattle.std.specs.Int.{bit_at};
ghost use Rattle.plan_defs.specs.Bits.{HasBit, IsShaped, Adds};

use seen_list::{List, Memory};
use std::alloc::Global;

/// Rows of bits, each of `64 * stride` bits: bit number `b` of row number `r` is bit `b % 64` of word
/// `r * stride + b / 64`.
#[derive(Drop)]
pub struct BitRows {
    pub words: List<u64>,
    pub stride: usize,
}

impl BitRows {
    /// So many rows of so many words of 64 bits, with no bit set.
    pub fn new(alloc: Global, rows: usize, stride: usize) -> Result<BitRows, Memory>
        requires { rows * stride < 2 ^ 60 }
        ensures shape { IfOk result (λ made. IsShaped made rows stride) }
        ensures none { IfOk result (λ made. (row bit : ℕ) → HasBit made row bit → ⊥) }
    {
        let words = List::filled(alloc, 0, rows * stride)?;
        Ok(BitRows { words, stride })
    }

    /// Sets a bit.
    pub fn put(&mut self, row: usize, bit: usize)
        requires within { bit < 64 * self.old.stride }
        requires room { row * self.old.stride + self.old.stride ≤ length self.old.words }
        ensures { Adds self.old self.new (λ r b. (r ≡ row) × (b ≡ bit)) }
    {
        let place = place(self.words.as_slice(), self.stride, row, bit / 64);
        let word = self.words.as_slice()[place];
        self.words.set(place, word | (1 << (bit % 64)));
    }

    /// Whether a bit is set. One that is past the row's width is not.
    pub fn has(&self, row: usize, bit: usize) -> bool
        requires { row * self.now.stride + self.now.stride ≤ length self.now.words }
        ensures { IsTrue result ↔ HasBit self.now row bit }
    {
        bit / 64 < self.stride && self.word(row, bit / 64) >> (bit % 64) & 1 == 1
    }

    /// Word number `w` of a row, which has the row's bits from `64 * w` on, the first of them lowest.
    pub fn word(&self, row: usize, w: usize) -> u64
        requires within { w < self.now.stride }
        requires room { row * self.now.stride + self.now.stride ≤ length self.now.words }
        ensures { (b : ℕ) → b < 64 → (bit_at result b ≡ 1) ↔ HasBit self.now row (64 * w + b) }
    {
        let words = self.words.as_slice();
        words[place(words, self.stride, row, w)]
    }
}

/// Where word number `w` of a row stands, among rows of `stride` words.
fn place(words: &[u64], stride: usize, row: usize, w: usize) -> usize
    requires within { w < stride }
    requires room { row * stride + stride ≤ length words.now }
    ensures { result ≡ row * stride + w }
{
    row * stride + w
}
