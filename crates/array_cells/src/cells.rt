//! The memory.

ghost use Rattle.std.specs.Prelude.{◌≡◌, ◌+◌, ◌*◌, ◌^◌, ◌<◌, ◌≤◌, if◌then◌else◌, [], IfOk, Option, Some, IfSome, All, length, map, slice_get, slice_index_or, slice_set};
ghost use Rattle.std.specs.List.{list_all};
ghost use Rattle.logic_four.specs.Memory.{HasShape, initial_words, memory_act, bits_number, address_of, word_at, written_at, undefined_word};
ghost use Rattle.logic_four.specs.Gates.{is_known, is_one};
ghost use Rattle.limits.specs.declared.TheConstants.{MAX_ADDRESS_BITS, MAX_WORD_BITS};
ghost use Rattle.array_cells.specs.code.Places.{stored};

use crate::places;
use crate::sheet::Sheet;
use limits::MAX_ADDRESS_BITS;
use logic_four::V4;
use seen_list::Memory;
use std::alloc::Global;
use std::marker::Model;

/// The words of a memory with the most address bits.
const MAX_WORDS: usize = 1 << MAX_ADDRESS_BITS;

/// The words of a memory, kept in two bits a value. A contract sees them as a list in address order,
/// each word a list of its bits, bit 0 first.
#[derive(Drop)]
pub struct Cells {
    sheet: Sheet,
    words: usize,
    word_bits: usize,
}

impl Model for Cells {
    ghost use Rattle.std.specs.Prelude.{List};
    ghost use Rattle.logic_four.specs.declared.V4.{V4};
    ghost use Rattle.array_cells.specs.Places.{words_of, HasRoom};

    ghost Value = { List (List V4) };

    ghost view = { λ c. words_of c.sheet c.words c.word_bits };

    ghost invariant = { λ c. HasRoom c.sheet c.words c.word_bits };
}

fn all_known(address: &[V4]) -> bool
    ensures { result ≡ list_all is_known address.now }
{
    address.iter().all(|bit| matches!(bit, V4::Zero | V4::One))
}

fn digit(bit: V4) -> usize
    ensures { result ≡ (if is_one bit then 1 else 0) }
{
    match bit {
        V4::One => 1,
        _ => 0,
    }
}

/// The number that an address says whose bits are known, bit 0 the least significant.
fn number_of(address: &[V4]) -> usize
    requires { length address.now ≤ MAX_ADDRESS_BITS }
    ensures { result ≡ bits_number address.now }
{
    let mut number = 0;
    for (i, bit) in address.iter().enumerate() {
        number += digit(*bit) << i;
    }
    number
}

impl Cells {
    /// A memory of 2 to the `address_bits` words, each of `word_bits` bits, with `init` in every bit.
    /// It has at most 16 address bits and words of at most 64 bits (this project's profile).
    pub fn new(alloc: Global, address_bits: u32, word_bits: u32, init: V4) -> Result<Cells, Memory>
        requires address { address_bits ≤ MAX_ADDRESS_BITS }
        requires word { word_bits ≤ MAX_WORD_BITS }
        ensures words { IfOk result (λ cells. cells ≡ initial_words address_bits word_bits init) }
        ensures shape { IfOk result (λ cells. HasShape address_bits word_bits cells) }
    {
        let words = 1 << address_bits;
        let word_bits = word_bits as usize;
        let sheet = Sheet::new(alloc, words * word_bits, init)?;
        Ok(Cells {
            sheet,
            words,
            word_bits,
        })
    }

    /// A bit of the word at the address `word`; bit 0 is the first of a word.
    pub fn bit(&self, word: usize, bit: usize) -> V4
        requires word_within { word < length self.now }
        requires bit_within { bit < length (slice_index_or self.now word []) }
        ensures { slice_get (slice_index_or self.now word []) bit ≡ Some result }
    {
        self.sheet.value(word * self.word_bits + bit)
    }

    /// The number of the word at an address, and `None` where some bit is neither 0 nor 1.
    fn word_number(&self, address: &[V4]) -> Option<usize>
        requires { length self.now ≡ 2 ^ length address.now }
        ensures address { result ≡ address_of address.now }
        ensures within { IfSome result (λ n. n < length self.now) }
    {
        // So an address has few bits, and its number fits.
        prove!(self.words <= MAX_WORDS);
        if all_known(address) {
            Some(number_of(address))
        } else {
            None
        }
    }

    /// The outputs of a read, by the number of its word, if that is known.
    fn read(&self, number: Option<usize>, outs: &mut [V4])
        requires within { IfSome number (λ n. n < length self.now) }
        requires fits { All (λ bits. length bits ≡ length outs.old) self.now }
        ensures { outs.new ≡ word_at self.now number (length outs.old) }
    {
        match number {
            Some(number) => places::read(&self.sheet, number * self.word_bits, outs),
            None => outs.fill(V4::Undef),
        }
    }

    /// Writes into one word: the settled data if the enable is 1, else undefined bits.
    fn store(&mut self, number: usize, we: V4, word: &[V4])
        requires within { number < length self.old }
        requires fits { length (slice_index_or self.old number []) ≡ length word.now }
        ensures { self.new ≡ slice_set self.old number (map (stored we) word.now) }
    {
        places::store(&mut self.sheet, number * self.word_bits, we, word);
    }

    /// Makes every bit of every word undefined.
    fn forget(&mut self)
        ensures { self.new ≡ map (λ word. undefined_word (length word)) self.old }
    {
        self.sheet.clear();
    }

    /// What a write leaves, by its enable and the number of its word, if that is known.
    #[tactic(auto, using(crate::proofs::WordLemmas::written_at_stored, crate::proofs::WordLemmas::written_at_forgotten))]
    fn write(&mut self, we: V4, number: Option<usize>, word: &[V4])
        requires within { IfSome number (λ n. n < length self.old) }
        requires fits { All (λ bits. length bits ≡ length word.now) self.old }
        ensures { self.new ≡ written_at we number self.old word.now }
    {
        if matches!(we, V4::Zero) {
            return;
        }
        match number {
            Some(number) => self.store(number, we, word),
            None => self.forget(),
        }
    }

    /// What an edge does: first the read, then the write. The outputs become the bits of the word at
    /// the address. Then an enable of 1 writes the settled data into that word, an undefined one makes
    /// the word undefined, and an undefined address makes every word undefined unless the enable is 0
    /// (this project's profile).
    #[tactic(auto, using(logic_four::proofs::lemmas::MemoryLemmas::shape_at), unfolding(logic_four::specs::Memory::read_word, logic_four::specs::Memory::written))]
    pub fn edge(&mut self, we: V4, address: &[V4], word: &[V4], outs: &mut [V4])
        requires shape { HasShape (length address.now) (length word.now) self.old }
        requires outs_fit { length outs.old ≡ length word.now }
        ensures outputs { outs.new ≡ (memory_act self.old we address.now word.now).outputs }
        ensures words { self.new ≡ (memory_act self.old we address.now word.now).words }
        ensures shape_stays { HasShape (length address.now) (length word.now) self.new }
    {
        let number = self.word_number(address);
        self.read(number, outs);
        self.write(we, number, word);
    }
}
