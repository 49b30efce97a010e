//! The output of a request, and how it is written.

ghost use Rattle.std.specs.Prelude.{IsErr, OnErr};
ghost use Rattle.yse_commands.specs.Outputs.{bytes_of, trace_bytes, CanEnd, CanPrint, HasTaken, wrote_in};
ghost use Rattle.edge_io.specs.Writing.{Writes};

use edge_io::{Sink, WriteNo, write_piece};
use image_defs::Image;
use net_defs::{Netlist, Rows, Stimulus};
use seen_list::{List, Text};
use stim_text::Lanes;
use trace_text::{TraceLine, write_texts, write_trace};

/// The printed values of a netlist, and room for a line of its trace.
#[derive(Drop)]
pub struct Trace {
    pub net: Netlist,
    pub rows: Rows,
    pub line: TraceLine,
}

/// A run that wrote its trace itself, block after block, and what came of the writing.
#[derive(Drop)]
pub struct Written {
    pub net: Netlist,
    pub image: Image,
    pub stimulus: Stimulus,
    pub wrote: Result<(), WriteNo>,
}

/// A run of lanes that wrote their traces itself, and what came of the writing.
#[derive(Drop)]
pub struct WrittenLanes {
    pub net: Netlist,
    pub image: Image,
    pub lanes: Lanes,
    pub wrote: Result<(), WriteNo>,
}

/// What a request writes.
#[derive(Drop)]
pub enum Output {
    /// One piece.
    Text(Text),
    /// One piece for each line.
    Trace(Trace),
    /// The same, of a run that was not finished.
    Unfinished(Trace, Ending),
    /// Nothing more: the run wrote it.
    Written(Written),
    /// Nothing more: the run of lanes wrote it.
    Lanes(WrittenLanes),
    /// One piece for each of these lines.
    Lines(List<Text>),
}

/// Where a run ended: the rows that are done, and those of a whole run.
#[derive(Clone, Copy)]
pub struct Ending {
    pub rows: u32,
    pub cycles: u32,
}

/// Writes an output, but for that of a run that wrote it itself. It takes no memory, and uses up the room for lines.
pub fn write_output<O: Sink>(out: &mut O, output: &mut Output) -> Result<(), WriteNo>
    requires { CanEnd output.old }
    ensures written { (before : O) → HasTaken O.taken O.faults before out.old output.old
        → Writes O.Sink.own before out.new result (bytes_of output.old) }
    ensures failed { OnErr (wrote_in output.old) (IsErr result) }
{
    match output {
        Output::Text(text) => write_piece(out, text.as_bytes()),
        Output::Trace(trace) => write_rows(out, trace),
        Output::Unfinished(trace, _) => write_rows(out, trace),
        Output::Written(run) => run.wrote,
        Output::Lanes(run) => run.wrote,
        Output::Lines(lines) => write_texts(out, lines.as_slice()),
    }
}

fn write_rows<O: Sink>(out: &mut O, trace: &mut Trace) -> Result<(), WriteNo>
    requires { CanPrint trace.old }
    ensures { Writes O.Sink.own out.old out.new result
        (trace_bytes trace.old) }
{
    write_trace(out, &trace.net, &mut trace.line, trace.rows.rows.as_slice())
}
