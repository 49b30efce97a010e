//! The table of a gate.

ghost use Rattle.std.specs.Prelude.{◌≡◌, ◌≤◌, ◌<◌, ℕ};
ghost use Rattle.logic_four.specs.Kinds.{AllowsOperands};
ghost use Rattle.func_table.specs.{Entries.entry_of, Entries.entry_for, Entries.HasWords, Entries.IsTableOf, code.Entries.answer_at};

use logic_four::{Kind, V4, code, decoded, gate, packed};

/// The entries of a table.
const ENTRIES: usize = 256;

/// The answer of a gate for each of the 256 choices of four operands. Entry `a + 4b + 16c + 64d` is
/// the answer for the operands of the codes a, b, c and d.
#[derive(Clone, Copy, PartialEq, Eq)]
pub struct Table {
    /// Entry `e` is a code in two bits of word `e / 32`, the first of them bit `2 * (e % 32)`.
    pub words: [u64; 8],
}

impl Table {
    /// The answer for four operands.
    #[tactic(auto, unfolding(crate::specs::Entries::entry_for, crate::specs::Entries::entry_of))]
    pub fn eval(&self, a: V4, b: V4, c: V4, d: V4) -> V4
        ensures { result ≡ entry_for self.now a b c d }
    {
        let entry = (code(a) + 4 * code(b) + 16 * code(c) + 64 * code(d)) as usize;
        packed::value(&self.words, entry)
    }
}

/// What a gate answers for the operands of one entry.
fn answer(kind: Kind, operands: usize, entry: usize) -> V4
    requires { operands ≤ 4 }
    ensures { result ≡ answer_at kind operands entry }
{
    let entry = entry as u64;
    let values = [
        decoded(entry),
        decoded(entry / 4),
        decoded(entry / 16),
        decoded(entry / 64),
    ];
    gate(kind, &values[..operands])
}

/// The table of a gate of this kind with so many operands, 1 to 4. Operands past that number don't
/// change the answer.
pub fn table_of(kind: Kind, operands: u32) -> Table
    requires few { operands ≤ 4 }
    requires allowed { AllowsOperands kind operands }
    ensures { IsTableOf kind operands result }
{
    let mut words = [0; 8];
    'entries: for entry in 0..ENTRIES {
        packed::put(&mut words, entry, answer(kind, operands as usize, entry));
    }
    let table = Table { words };
    has_words(table);
    table
}

/// A law: a table has eight words of 64 bits. It does nothing.
fn has_words(_table: Table)
    ensures { HasWords _table }
{}

/// A law: a table is its 256 entries. It does nothing.
pub fn entries_decide(table: &Table, other: &Table)
    ensures { ((e : ℕ) → e < 256 → entry_of table.now e ≡ entry_of other.now e) → table.now ≡ other.now }
{
    // A word that is read is one of 64 bits.
    let _read = (table.words[0], other.words[0]);
}
