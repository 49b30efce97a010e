//! The lines of machine texts that are refused.

ghost use Rattle.std.specs.Prelude.{◌<◌};
ghost use Rattle.edge_io.specs.Writing.{Writes};
ghost use Rattle.refusals.specs.Lines.{machine_line, ports_line};

use crate::lines::{write_line_fault, write_memory_line, write_pieces};
use edge_io::{Sink, WriteNo};
use itoa::Buffer;
use limits::MAX_PORTS;
use machine_text::MachNo;

/// Writes the line of a machine text that is refused.
pub fn write_machine_line<S: Sink>(sink: &mut S, no: &MachNo) -> Result<(), WriteNo>
    ensures { Writes S.Sink.own sink.old sink.new
        result (machine_line no.now) }
{
    match no {
        MachNo::Syntax { line } => write_line_fault(sink, b"machine", *line, b"syntax"),
        MachNo::Range { line } => write_line_fault(sink, b"machine", *line, b"out of range"),
        MachNo::Twice { line } => write_line_fault(sink, b"machine", *line, b"given twice"),
        MachNo::Ports { sum } => write_ports_line(sink, *sum),
        MachNo::Memory => write_memory_line(sink),
        MachNo::NoPort { line } => write_line_fault(sink, b"machine", *line, b"no such port"),
    }
}

#[tactic(auto, unfolding(crate::specs::Lines::ports_line))]
fn write_ports_line<S: Sink>(sink: &mut S, ports: u32) -> Result<(), WriteNo>
    ensures { Writes S.Sink.own sink.old sink.new
        result (ports_line ports) }
{
    let (mut first, mut second) = (Buffer::new(), Buffer::new());
    let ports = first.format(ports).as_bytes();
    let most = second.format(MAX_PORTS).as_bytes();
    write_pieces(
        sink,
        &[b"machine: ", ports, b" ports, limit is ", most, b"\n"],
    )
}
