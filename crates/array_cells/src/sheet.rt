//! Packed words, all of which one new number clears.

ghost use Rattle.std.specs.Prelude.{◌≡◌, ◌≢◌, ◌*◌, ◌^◌, ◌<◌, ◌≤◌, ℕ, IfOk, length, replicate, slice_index, slice_set};
ghost use Rattle.logic_four.specs.Packed.{packed_value};

use logic_four::{V4, packed};
use seen_list::Memory;
use std::alloc::Global;
use std::marker::Model;

/// A word whose values are all undefined.
pub const BLANK: u64 = 0xAAAA_AAAA_AAAA_AAAA;

/// Values in packed words, which are all cleared by counting a clearing. For each word stands the number of
/// the clearing that it has seen; where that isn't the last one, the word is blank, whatever is kept of it.
/// A contract sees the words as they read.
#[derive(Drop)]
pub struct Sheet {
    words: Vec<u64>,
    seen: Vec<u8>,
    clearings: u8,
}

impl Model for Sheet {
    ghost use Rattle.std.specs.Prelude.{List, ℕ};
    ghost use Rattle.array_cells.specs.code.Sheets.{words_after, IsDated};

    ghost Value = { List ℕ };

    ghost view = { λ s. words_after s.words.items s.seen.items s.clearings };

    ghost invariant = { λ s. IsDated s.words.items s.seen.items s.clearings };
}

impl Sheet {
    /// Room for so many values, all of them `v`.
    pub fn new(alloc: Global, values: usize, v: V4) -> Result<Sheet, Memory>
        requires { values < 2 ^ 32 }
        ensures room { IfOk result (λ words. values ≤ 32 * length words) }
        ensures all { IfOk result (λ words. (place : ℕ) → place < values → packed_value words place ≡ v) }
    {
        let count = values.div_ceil(packed::PER_WORD);
        let words = vec![in alloc; packed::filled(v); count]?;
        let seen = vec![in alloc; 0; count]?;
        Ok(Sheet {
            words,
            seen,
            clearings: 0,
        })
    }

    /// A word as it reads.
    fn word(&self, k: usize) -> u64
        requires { k < length self.now }
        ensures { result ≡ slice_index self.now k }
    {
        if self.seen[k] == self.clearings {
            self.words[k]
        } else {
            BLANK
        }
    }

    /// Puts another word in the place of one of them.
    fn set_word(&mut self, k: usize, word: u64)
        requires { k < length self.old }
        ensures { self.new ≡ slice_set self.old k word }
    {
        self.words[k] = word;
        self.seen[k] = self.clearings;
    }

    /// The value in a place.
    #[tactic(auto, unfolding(logic_four::specs::Packed::packed_value))]
    pub fn value(&self, place: usize) -> V4
        requires { place < 32 * length self.now }
        ensures { result ≡ packed_value self.now place }
    {
        packed::value_in(
            self.word(place / packed::PER_WORD),
            place % packed::PER_WORD,
        )
    }

    /// Puts another value in a place.
    pub fn put(&mut self, place: usize, v: V4)
        requires { place < 32 * length self.old }
        ensures as_long { length self.new ≡ length self.old }
        ensures here { packed_value self.new place ≡ v }
        ensures others { (other : ℕ) → other ≢ place → packed_value self.new other ≡ packed_value self.old other }
    {
        let k = place / packed::PER_WORD;
        let word = self.word(k);
        self.set_word(k, packed::with_value(word, place % packed::PER_WORD, v));
    }

    /// Makes every value undefined.
    pub fn clear(&mut self)
        ensures { self.new ≡ replicate (length self.old) BLANK }
    {
        if self.clearings == u8::MAX {
            // No number is left: the words are filled one by one, and all have seen the first number.
            self.words.fill(BLANK);
            self.seen.fill(0);
            self.clearings = 0;
        } else {
            self.clearings += 1;
        }
    }
}
