//! A trace that is kept.

ghost use Rattle.std.specs.Prelude.{◌≡◌, ◌≤◌, ℕ, Some, length, slice_get};
ghost use Rattle.edge_io.specs.Writing.{Writes};
ghost use Rattle.trace_text.specs.{Lines.FitsLine, Lines.cycle_lines, Lines.trace_text, Line.row_room};
ghost use Rattle.limits.specs.declared.TheConstants.{MAX_CYCLES};
ghost use Rattle.net_defs.specs.declared.trace.CellRow.{CellRow};

use crate::TraceLine;
use edge_io::{Sink, WriteNo, write_piece};
use net_defs::{CellRow, Netlist};

/// Writes the header with the netlist's printed names, and then the line of each cycle, one line a piece. It takes
/// no memory.
#[tactic(auto, using(edge_io::proofs::lemmas::WritingLemmas::writes_stop))]
pub fn write_trace<O: Sink>(
    out: &mut O,
    net: &Netlist,
    line: &mut TraceLine,
    rows: &[CellRow],
) -> Result<(), WriteNo>
    requires { FitsLine net.now rows.now line.old }
    ensures written { Writes O.Sink.own out.old out.new result (trace_text net.now rows.now) }
    ensures room { line.new.room ≡ line.old.room }
{
    line.header(net);
    match write_piece(out, line.bytes()) {
        Ok(()) => write_rows(out, line, rows),
        Err(no) => Err(no),
    }
}

/// Writes the line of each cycle, counted from 1.
fn write_rows<O: Sink>(out: &mut O, line: &mut TraceLine, rows: &[CellRow]) -> Result<(), WriteNo>
    requires room { (c : ℕ) (row : CellRow) → slice_get rows.now c ≡ Some row → row_room (length row.cells) ≤ line.old.room }
    requires cycles { length rows.now ≤ MAX_CYCLES }
    ensures written { Writes O.Sink.own out.old out.new result (cycle_lines rows.now) }
    ensures room { line.new.room ≡ line.old.room }
{
    'rows: for (i, row) in rows.iter().enumerate() {
        line.row(i as u32 + 1, row.cells.as_slice());
        if let Err(no) = write_piece(out, line.bytes()) {
            return Err(no);
        }
    }
    Ok(())
}
