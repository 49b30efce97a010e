//! The lines of texts of lists of gates, and of stuck faults, that are refused.

ghost use Rattle.std.specs.Prelude.{◌<◌};
ghost use Rattle.edge_io.specs.Writing.{Writes};
ghost use Rattle.refusals.specs.Lines.{faults_line, list_line};

use crate::lines::{write_line_fault, write_memory_line};
use bench_read::{FaultNo, LastNo};
use edge_io::{Sink, WriteNo};

/// Writes the line of the text of a list that is refused.
pub fn write_list_line<S: Sink>(sink: &mut S, no: &LastNo) -> Result<(), WriteNo>
    ensures { Writes S.Sink.own sink.old sink.new
        result (list_line no.now) }
{
    match no {
        LastNo::Syntax { line } => write_line_fault(sink, b"last list", *line, b"syntax"),
        LastNo::NoGate { line } => write_line_fault(sink, b"last list", *line, b"no such gate"),
        LastNo::Twice { line } => write_line_fault(sink, b"last list", *line, b"given twice"),
        LastNo::Memory => write_memory_line(sink),
    }
}

/// Writes the line of the text of a list of stuck faults that is refused.
pub fn write_faults_line<S: Sink>(sink: &mut S, no: &FaultNo) -> Result<(), WriteNo>
    ensures { Writes S.Sink.own sink.old sink.new
        result (faults_line no.now) }
{
    match no {
        FaultNo::Syntax { line } => write_line_fault(sink, b"fault list", *line, b"syntax"),
        FaultNo::NoSignal { line } => {
            write_line_fault(sink, b"fault list", *line, b"no such signal")
        }
        FaultNo::Twice { line } => write_line_fault(sink, b"fault list", *line, b"given twice"),
        FaultNo::Memory => write_memory_line(sink),
    }
}
