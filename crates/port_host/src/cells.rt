//! The cells that are printed: those of some cycles, one row after the other.

ghost use Rattle.std.specs.Prelude.{ℕ, ◌≡◌, ◌≢◌, ◌+◌, ◌*◌, ◌<◌, ◌≤◌, length, IfOk};
ghost use Rattle.logic_four.specs.Values.{value_at};
ghost use Rattle.image_defs.specs.Places.{Each};
ghost use Rattle.port_bank.specs.Flat.{IsWithin};
ghost use Rattle.port_host.specs.{Rows.row_start, code.Rows.HasPrinted};

use image_defs::Source;
use logic_four::V4;
use port_bank::Bank;
use seen_list::{List, Memory};
use std::alloc::Global;

/// Room for so many rows of this width. `Memory` also where so many cells can't be counted.
pub(crate) fn room(alloc: Global, rows: u32, width: usize) -> Result<List<V4>, Memory>
    ensures { IfOk result (λ cells. length cells ≡ rows * width) }
{
    match width.checked_mul(rows as usize) {
        Some(count) => List::filled(alloc, V4::Undef, count),
        None => Err(Memory),
    }
}

/// The place of the first cell of a row, where so many rows come before it.
pub(crate) fn row_start(rows: u32, width: usize, count: usize) -> usize
    requires { rows * width ≤ count }
    ensures { result ≡ row_start rows width }
{
    rows as usize * width
}

/// Puts what the sources have into the cells from this place on.
fn print(cells: &mut List<V4>, start: usize, sources: &[Source], bank: &Bank<'_, V4>)
    requires room { start + length sources.now ≤ length cells.old }
    requires within { Each (IsWithin bank.now.image.slots) sources.now }
    ensures { HasPrinted bank.now sources.now (length sources.now) start cells.old cells.new }
{
    let _count = cells.len();
    'sources: for j in 0..sources.len() {
        cells.set(start + j, bank.take(sources[j]));
    }
}

/// Keeps what the sources have after the last turn of a cycle, behind so many rows that are kept.
/// `unit` is the number of turns of this cycle that are over.
pub(crate) fn keep_row(
    cells: &mut List<V4>,
    units: u32,
    unit: u32,
    rows: u32,
    sources: &[Source],
    bank: &Bank<'_, V4>,
)
    requires unit { unit < units }
    requires room { unit + 1 ≡ units
        → row_start rows (length sources.now) + length sources.now ≤ length cells.old }
    requires within { Each (IsWithin bank.now.image.slots) sources.now }
    ensures kept { unit + 1 ≡ units
        → HasPrinted bank.now sources.now (length sources.now)
        (row_start rows (length sources.now)) cells.old cells.new }
    ensures same { unit + 1 ≢ units → cells.new ≡ cells.old }
{
    let count = cells.len();
    if unit + 1 == units {
        let start = row_start(rows, sources.len(), count);
        print(cells, start, sources, bank);
    }
}

/// The row of so many cells from this place on.
pub(crate) fn row(cells: &[V4], start: usize, width: usize) -> &[V4]
    requires { start + width ≤ length cells.now }
    ensures long { length result.now ≡ width }
    ensures cells { (j : ℕ) → j < width → value_at result.now j ≡ value_at cells.now (start + j) }
{
    &cells[start..start + width]
}
