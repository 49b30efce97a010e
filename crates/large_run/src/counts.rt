//! The printed cells of a run, counted by value.

ghost use Rattle.std.specs.Prelude.{◌≡◌, ◌<◌, ◌^◌, IfOk, length};
ghost use Rattle.large_run.specs.{Summaries.counts_of, Summaries.summary_text as text_of, code.Rows.cells_in};

use crate::{CellCounts, Summary, summary_text};
use net_defs::CellRow;
use seen_list::{Memory, Text};
use std::alloc::Global;

/// How many cells of the rows have each value.
fn counted(rows: &[CellRow]) -> CellCounts
    requires { length (cells_in rows.now) < 2 ^ 64 }
    ensures { result ≡ counts_of (cells_in rows.now) }
{
    let mut counts = CellCounts::none();
    'rows: for row in rows {
        counts.add(row.cells.as_slice());
    }
    counts
}

/// The summary of these figures and of the cells of the rows.
pub(crate) fn summed_up(alloc: Global, figures: &Summary, rows: &[CellRow]) -> Result<Text, Memory>
    requires { length (cells_in rows.now) < 2 ^ 64 }
    ensures { IfOk result (λ text. text ≡ text_of (record figures.now { cells = counts_of (cells_in rows.now) })) }
{
    let summary = Summary {
        gates: figures.gates,
        nodes: figures.nodes,
        slots: figures.slots,
        crossings: figures.crossings,
        cells: counted(rows),
    };
    summary_text(alloc, &summary)
}
