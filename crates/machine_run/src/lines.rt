//! The lines of a block.

ghost use Rattle.std.specs.Prelude.{length, ◌≡◌, ◌≤◌};
ghost use Rattle.machine_run.specs.Lines.{cells_shown, lines_between};
ghost use Rattle.edge_io.specs.Writing.{Writes};
ghost use Rattle.limits.specs.declared.TheConstants.{MAX_CYCLES};
ghost use Rattle.port_host.specs.Rows.{printed_sources, rows_done};
ghost use Rattle.trace_text.specs.Line.{row_room};

use edge_io::{Sink, WriteNo, write_whole};
use port_host::HostPort;
use trace_text::TraceLine;

/// Writes the line that was made last, as one piece.
pub(crate) fn write_line<O: Sink>(out: &mut O, line: &TraceLine) -> Result<(), WriteNo>
    ensures { Writes O.Sink.own out.old out.new result line.now.bytes }
{
    write_whole(out, line.bytes())
}

/// Writes the lines of the cycles whose rows the host keeps, one line a piece.
pub(crate) fn write_rows<O: Sink>(
    out: &mut O,
    line: &mut TraceLine,
    host: &HostPort<'_>,
) -> Result<(), WriteNo>
    requires room { row_room (length (printed_sources host.now.port.image)) ≤ line.old.room }
    requires cycles { rows_done host.now.port ≤ MAX_CYCLES }
    ensures room { line.new.room ≡ line.old.room }
    ensures written { Writes O.Sink.own out.old out.new result
        (lines_between (cells_shown host.now.port.image host.now.port.stimulus) host.now.first_row (rows_done host.now.port)) }
{
    'rows: for c in host.first_row()..host.rows_done() {
        line.row(c + 1, host.cells(c + 1));
        if let Err(no) = write_line(out, line) {
            return Err(no);
        }
    }
    Ok(())
}
