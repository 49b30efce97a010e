//! Values in places of a list of packed words, from a place on.

ghost use Rattle.std.specs.Prelude.{◌≡◌, ◌+◌, ◌*◌, ◌^◌, ◌<◌, ◌≤◌, length, slice_index_or};
ghost use Rattle.array_cells.specs.{Places.values_from, code.Places.Writes, code.Places.stored};

use crate::sheet::Sheet;
use logic_four::{V4, settle};

/// Reads as many values as `outs` has, from a place on.
pub fn read(sheet: &Sheet, base: usize, outs: &mut [V4])
    requires within { base + length outs.old ≤ 32 * length sheet.now }
    requires small { base + length outs.old < 2 ^ 32 }
    ensures { outs.new ≡ values_from sheet.now base (length outs.old) }
{
    for (i, out) in outs.iter_mut().enumerate() {
        *out = sheet.value(base + i);
    }
}

/// What a write with this enable stores of a bit of data.
fn stored_bit(we: V4, bit: V4) -> V4
    ensures { result ≡ stored we bit }
{
    match we {
        V4::One => settle(bit),
        _ => V4::Undef,
    }
}

/// Stores a word, from a place on.
pub fn store(sheet: &mut Sheet, base: usize, we: V4, word: &[V4])
    requires within { base + length word.now ≤ 32 * length sheet.old }
    requires small { base + length word.now < 2 ^ 32 }
    ensures { Writes sheet.old sheet.new base (length word.now) (λ i. stored we (slice_index_or word.now i V4.Zero)) }
{
    for (i, bit) in word.iter().enumerate() {
        sheet.put(base + i, stored_bit(we, *bit));
    }
}
