//! Rows of cells: room for those of all cycles, and what the host has for them.

ghost use Rattle.std.specs.Prelude.{IfOk, length, ◌≡◌};
ghost use Rattle.image_defs.specs.WellFormed.{IsWellFormed};
ghost use Rattle.machine_run.specs.{Shown.AreShown, code.Shown.AreWide};
ghost use Rattle.port_host.specs.Rows.{printed_sources, rows_done};

use image_defs::{Image, Work};
use logic_four::V4;
use net_defs::{CellRow, Rows};
use port_host::HostPort;
use seen_list::{List, Memory};
use std::alloc::Global;

/// How many cells a row of the image has: one for each source that the host prints.
fn width(image: &Image) -> usize
    requires { IsWellFormed image.now }
    ensures { result ≡ length (printed_sources image.now) }
{
    let host = image.ports.len() - 1;
    match &image.ports.as_slice()[host].work {
        Work::Logic { .. } => unreachable!(),
        Work::Array { .. } => unreachable!(),
        Work::Host { printed, .. } => printed.len(),
    }
}

/// Room for a row of so many cells.
fn blank_row(alloc: Global, width: usize) -> Result<CellRow, Memory>
    ensures { IfOk result (λ row. length row.cells ≡ width) }
{
    Ok(CellRow {
        cells: List::filled(alloc, V4::Undef, width)?,
    })
}

/// Room for the rows of so many cycles of the image.
pub(crate) fn blank_rows(alloc: Global, image: &Image, cycles: u32) -> Result<Rows, Memory>
    requires { IsWellFormed image.now }
    ensures { IfOk result (λ rows. AreWide cycles (length (printed_sources image.now)) rows.rows) }
{
    let width = width(image);
    let mut rows = List::new(alloc);
    'cycles: for _ in 0..cycles {
        rows.push(blank_row(alloc, width)?)?;
    }
    Ok(Rows { rows })
}

/// Copies the cells to the row.
fn fill_row(row: &mut CellRow, cells: &[V4])
    requires { length row.old.cells ≡ length cells.now }
    ensures { row.new.cells ≡ cells.now }
{
    row.cells.as_mut_slice().copy_from_slice(cells);
}

/// Copies the rows of the host, which has given up none.
pub(crate) fn fill_rows(rows: &mut [CellRow], host: &HostPort<'_>)
    requires none { host.now.first_row ≡ 0 }
    requires room { AreWide (rows_done host.now.port) (length (printed_sources host.now.port.image)) rows.old }
    ensures { AreShown host.now.port.image host.now.port.stimulus (rows_done host.now.port) rows.new }
{
    'cycles: for c in 0..host.rows_done() {
        fill_row(&mut rows[c as usize], host.cells(c + 1));
    }
}
