//! The slots that are taken, port by port.

ghost use Rattle.std.specs.Prelude.{◌≡◌, ◌↔◌, ◌+◌, ◌*◌, ◌^◌, ◌<◌, ◌≤◌, ℕ, Contains, IfOk};
ghost use Rattle.std.specs.Int.{bit_at};
ghost use Rattle.limits.specs.declared.TheConstants.{MAX_PORTS};
ghost use Rattle.plan_defs.specs.{Bits.HasBit, Bits.Adds, Lists.IsLeastFree};
ghost use Rattle.slot_plan.specs.code.Boards.{HasRows, IsBoard, IsTaken, IsRuledOut, IsShut, IsRowFor, Finds};

use plan_defs::BitRows;
use seen_list::Memory;
use std::alloc::Global;

/// The slots in which a port sends are row `port`, and those in which it receives are row
/// `ports + port`. Bit `w` of a row of `full` says that word `w` of that row has no free slot, so a
/// search passes over 64 such words, 4,096 slots, in a step.
#[derive(Drop)]
pub(crate) struct Board {
    pub(crate) rows: BitRows,
    pub(crate) full: BitRows,
    pub(crate) ports: usize,
}

impl Board {
    /// So many ports, each with more than so many slots, none of them taken.
    pub(crate) fn new(alloc: Global, ports: usize, slots: usize) -> Result<Board, Memory>
        requires ports { ports ≤ MAX_PORTS }
        requires slots { slots < 2 ^ 31 }
        ensures board { IfOk result IsBoard }
        ensures ports { IfOk result (λ board. board.ports ≡ ports) }
        ensures slots { IfOk result (λ board. slots ≤ 64 * board.rows.stride) }
        ensures none { IfOk result (λ board. (row s : ℕ) → HasBit board.rows row s → ⊥) }
    {
        let spans = slots / 4_096 + 1;
        let rows = BitRows::new(alloc, 2 * ports, 64 * spans)?;
        let full = BitRows::new(alloc, 2 * ports, spans)?;
        Ok(Board { rows, full, ports })
    }

    /// The first slot from `from` on that is free at the home and for all the readers.
    pub(crate) fn first_free(&self, home: usize, readers: &[u32], from: usize) -> usize
        requires board { IsBoard self.now }
        requires home { home < self.now.ports }
        requires readers { (r : ℕ) → Contains readers.now r → r < self.now.ports }
        requires from { from ≤ 64 * self.now.rows.stride }
        ensures { IsLeastFree (IsShut self.now home readers.now from) result }
    {
        'spans: for span in from / 4_096..self.full.stride {
            let found = self.free_in_span(home, readers, from, span);
            if let Some(slot) = found {
                return slot;
            }
        }
        64 * self.rows.stride
    }

    /// The same among the 64 words of a span, where no slot before them is free.
    fn free_in_span(&self, home: usize, readers: &[u32], from: usize, span: usize) -> Option<usize>
        requires board { IsBoard self.now }
        requires home { home < self.now.ports }
        requires readers { (r : ℕ) → Contains readers.now r → r < self.now.ports }
        requires within { span < self.now.full.stride }
        requires before { (s : ℕ) → s < 4096 * span → IsShut self.now home readers.now from s }
        ensures { Finds (IsShut self.now home readers.now from) (4096 * (span + 1)) result }
    {
        let passed = self.passed_words(home, readers, from, span);
        if passed == u64::MAX {
            return None;
        }
        'words: for k in 0..64usize {
            if passed >> k & 1 == 0 {
                let found = self.free_in_word(home, readers, from, 64 * span + k);
                if let Some(slot) = found {
                    return Some(slot);
                }
            }
        }
        None
    }

    /// Those of the 64 words of a span in which no slot is free: they end before `from`, or are
    /// noted as full for the home or one of the readers.
    fn passed_words(&self, home: usize, readers: &[u32], from: usize, span: usize) -> u64
        requires board { IsBoard self.now }
        requires home { home < self.now.ports }
        requires readers { (r : ℕ) → Contains readers.now r → r < self.now.ports }
        requires within { span < self.now.full.stride }
        ensures { (k b : ℕ) → k < 64 → b < 64 → bit_at result k ≡ 1 → IsShut self.now home readers.now from (64 * (64 * span + k) + b) }
    {
        out_word(&self.full, self.ports, home, readers, from / 64, span)
    }

    /// The first free slot among those of a word, where no slot before them is free.
    fn free_in_word(&self, home: usize, readers: &[u32], from: usize, w: usize) -> Option<usize>
        requires board { IsBoard self.now }
        requires home { home < self.now.ports }
        requires readers { (r : ℕ) → Contains readers.now r → r < self.now.ports }
        requires within { w < self.now.rows.stride }
        requires before { (s : ℕ) → s < 64 * w → IsShut self.now home readers.now from s }
        ensures { Finds (IsShut self.now home readers.now from) (64 * (w + 1)) result }
    {
        let shut = out_word(&self.rows, self.ports, home, readers, from, w);
        if shut == u64::MAX {
            return None;
        }
        Some(64 * w + shut.trailing_ones() as usize)
    }

    /// Takes a slot at the home and for all the readers.
    pub(crate) fn take(&mut self, home: usize, readers: &[u32], slot: usize)
        requires board { IsBoard self.old }
        requires home { home < self.old.ports }
        requires readers { (r : ℕ) → Contains readers.now r → r < self.old.ports }
        requires within { slot < 64 * self.old.rows.stride }
        ensures board { IsBoard self.new }
        ensures ports { self.new.ports ≡ self.old.ports }
        ensures adds { Adds self.old.rows self.new.rows (λ row s. IsRowFor self.old home readers.now row × (s ≡ slot)) }
    {
        let ports = self.ports;
        self.mark(home, slot);
        'readers: for i in 0..readers.len() {
            self.mark(ports + readers[i] as usize, slot);
        }
    }

    /// Takes a slot in a row.
    fn mark(&mut self, row: usize, slot: usize)
        requires board { IsBoard self.old }
        requires row { row < 2 * self.old.ports }
        requires within { slot < 64 * self.old.rows.stride }
        ensures board { IsBoard self.new }
        ensures ports { self.new.ports ≡ self.old.ports }
        ensures adds { Adds self.old.rows self.new.rows (λ r s. (r ≡ row) × (s ≡ slot)) }
    {
        self.rows.put(row, slot);
        self.note(row, slot / 64);
    }

    /// Notes a word of a row if it is full.
    fn note(&mut self, row: usize, w: usize)
        requires board { IsBoard self.old }
        requires row { row < 2 * self.old.ports }
        requires within { w < self.old.rows.stride }
        ensures board { IsBoard self.new }
        ensures ports { self.new.ports ≡ self.old.ports }
        ensures rows { self.new.rows ≡ self.old.rows }
    {
        let word = self.rows.word(row, w);
        if word == u64::MAX {
            self.full.put(row, w);
        }
    }
}

/// Word number `w` of the numbers that are before `from`, or in one of the rows that an item takes.
fn out_word(
    rows: &BitRows,
    ports: usize,
    home: usize,
    readers: &[u32],
    from: usize,
    w: usize,
) -> u64
    requires few { ports ≤ MAX_PORTS }
    requires rows { HasRows rows.now ports }
    requires home { home < ports }
    requires readers { (r : ℕ) → Contains readers.now r → r < ports }
    requires small { rows.now.stride < 2 ^ 32 }
    requires within { w < rows.now.stride }
    ensures { (b : ℕ) → b < 64 → (bit_at result b ≡ 1) ↔ IsRuledOut rows.now ports home readers.now from (64 * w + b) }
{
    low_ones(from, w) | taken_word(rows, ports, home, readers, w)
}

/// Word number `w` of the home's row joined with those of what the readers receive.
fn taken_word(rows: &BitRows, ports: usize, home: usize, readers: &[u32], w: usize) -> u64
    requires few { ports ≤ MAX_PORTS }
    requires rows { HasRows rows.now ports }
    requires home { home < ports }
    requires readers { (r : ℕ) → Contains readers.now r → r < ports }
    requires within { w < rows.now.stride }
    ensures { (b : ℕ) → b < 64 → (bit_at result b ≡ 1) ↔ IsTaken rows.now ports home readers.now (64 * w + b) }
{
    let mut word = rows.word(home, w);
    'readers: for i in 0..readers.len() {
        word |= rows.word(ports + readers[i] as usize, w);
    }
    word
}

/// Word number `w` of the numbers below `from`.
fn low_ones(from: usize, w: usize) -> u64
    requires { w < 2 ^ 32 }
    ensures { (b : ℕ) → b < 64 → (bit_at result b ≡ 1) ↔ (64 * w + b < from) }
{
    if from <= 64 * w {
        return 0;
    }
    let ones = from - 64 * w;
    if ones < 64 { (1 << ones) - 1 } else { u64::MAX }
}
