//! The cells that are printed in all lanes: those of all cycles, one row after the other.

ghost use Rattle.std.specs.Prelude.{◌≡◌, ◌≢◌, ◌+◌, ◌*◌, ◌<◌, ◌≤◌, length, IfOk};
ghost use Rattle.limits.specs.declared.TheConstants.{LANES};
ghost use Rattle.logic_four.specs.Values.{value_at};
ghost use Rattle.image_defs.specs.Places.{Each};
ghost use Rattle.port_bank.specs.Flat.{IsWithin};
ghost use Rattle.port_host.specs.Rows.{row_start};
ghost use Rattle.pack_walk.specs.{Cells.in_lane, code.Cells.HasPrintedAll};

use image_defs::Source;
use lane_planes::{Planes, in_all_lanes, lane};
use logic_four::V4;
use port_bank::Bank;
use seen_list::{List, Memory};
use std::alloc::Global;

/// Room for so many rows of this width. `Memory` also where so many cells can't be counted.
pub(crate) fn room(alloc: Global, rows: u32, width: usize) -> Result<List<Planes>, Memory>
    ensures { IfOk result (λ cells. length cells ≡ rows * width) }
{
    match width.checked_mul(rows as usize) {
        Some(count) => List::filled(alloc, in_all_lanes(V4::Undef), count),
        None => Err(Memory),
    }
}

/// The place of the first cell of a row, where so many rows come before it.
pub(crate) fn row_start(rows: u32, width: usize, count: usize) -> usize
    requires { rows * width ≤ count }
    ensures { result ≡ row_start rows width }
{
    rows as usize * width
}

/// Puts what the sources have into the cells from this place on.
fn print(cells: &mut List<Planes>, start: usize, sources: &[Source], bank: &Bank<'_, Planes>)
    requires room { start + length sources.now ≤ length cells.old }
    requires within { Each (IsWithin bank.now.image.slots) sources.now }
    ensures { HasPrintedAll bank.now sources.now (length sources.now) start cells.old cells.new }
{
    let _count = cells.len();
    'sources: for j in 0..sources.len() {
        cells.set(start + j, bank.take(sources[j]));
    }
}

/// Keeps what the sources have after the last turn of a cycle, behind so many rows.
/// `unit` is the number of turns of this cycle that are over.
pub(crate) fn keep_row(
    cells: &mut List<Planes>,
    units: u32,
    unit: u32,
    rows: u32,
    sources: &[Source],
    bank: &Bank<'_, Planes>,
)
    requires unit { unit < units }
    requires room { unit + 1 ≡ units
        → row_start rows (length sources.now) + length sources.now ≤ length cells.old }
    requires within { Each (IsWithin bank.now.image.slots) sources.now }
    ensures kept { unit + 1 ≡ units
        → HasPrintedAll bank.now sources.now (length sources.now)
        (row_start rows (length sources.now)) cells.old cells.new }
    ensures same { unit + 1 ≢ units → cells.new ≡ cells.old }
{
    let count = cells.len();
    if unit + 1 == units {
        let start = row_start(rows, sources.len(), count);
        print(cells, start, sources, bank);
    }
}

/// A cell of the row from this place on, in a lane.
pub(crate) fn cell(cells: &[Planes], start: usize, column: usize, number: u32) -> V4
    requires there { start + column < length cells.now }
    requires lane { number < LANES }
    ensures { result ≡ value_at (in_lane number cells.now) (start + column) }
{
    lane(cells[start + column], number)
}
