//! The lines of stimulus texts and of texts of lanes that are refused.

ghost use Rattle.std.specs.Prelude.{◌<◌};
ghost use Rattle.edge_io.specs.Writing.{Writes};
ghost use Rattle.refusals.specs.Lines.{cycles_line, lanes_line, many_lanes_line, stimulus_line, width_line};

use crate::lines::{write_line_fault, write_memory_line, write_pieces};
use edge_io::{Sink, WriteNo, write_piece};
use itoa::Buffer;
use limits::LANES;
use stim_text::{LaneNo, StimNo};

/// Writes the line of a stimulus that is refused.
pub fn write_stimulus_line<S: Sink>(sink: &mut S, no: &StimNo) -> Result<(), WriteNo>
    ensures { Writes S.Sink.own sink.old sink.new
        result (stimulus_line no.now) }
{
    match no {
        StimNo::BadChar { line } => write_line_fault(sink, b"stimulus", *line, b"bad character"),
        StimNo::Width { line, got, want } => write_width_line(sink, *line, *got, *want),
        StimNo::Repeat { line } => write_line_fault(sink, b"stimulus", *line, b"bad repeat"),
        StimNo::TooManyCycles => write_cycles_line(sink),
        StimNo::Memory => write_memory_line(sink),
    }
}

#[tactic(auto, unfolding(crate::specs::Lines::width_line))]
fn write_width_line<S: Sink>(sink: &mut S, line: u32, got: u32, want: u32) -> Result<(), WriteNo>
    ensures { Writes S.Sink.own sink.old sink.new
        result (width_line line got want) }
{
    let (mut first, mut second, mut third) = (Buffer::new(), Buffer::new(), Buffer::new());
    let line = first.format(line).as_bytes();
    let got = second.format(got).as_bytes();
    let want = third.format(want).as_bytes();
    write_pieces(
        sink,
        &[
            b"stimulus: line ",
            line,
            b": ",
            got,
            b" values, ",
            want,
            b" wanted\n",
        ],
    )
}

#[tactic(auto, unfolding(crate::specs::Lines::cycles_line))]
fn write_cycles_line<S: Sink>(sink: &mut S) -> Result<(), WriteNo>
    ensures { Writes S.Sink.own sink.old sink.new
        result cycles_line }
{
    write_piece(sink, b"stimulus: too many cycles\n")
}

/// Writes the line of a fault of a text of lanes.
pub fn write_lanes_line<S: Sink>(sink: &mut S, no: &LaneNo) -> Result<(), WriteNo>
    ensures { Writes S.Sink.own sink.old sink.new
        result (lanes_line no.now) }
{
    match no {
        LaneNo::NoLane { line } => write_line_fault(sink, b"stimulus", *line, b"no lane"),
        LaneNo::TooMany { line } => write_many_lanes_line(sink, *line),
        LaneNo::Stim(no) => write_stimulus_line(sink, no),
        LaneNo::Memory => write_memory_line(sink),
    }
}

#[tactic(auto, unfolding(crate::specs::Lines::many_lanes_line))]
fn write_many_lanes_line<S: Sink>(sink: &mut S, line: u32) -> Result<(), WriteNo>
    ensures { Writes S.Sink.own sink.old sink.new
        result (many_lanes_line line) }
{
    let (mut first, mut second) = (Buffer::new(), Buffer::new());
    let line = first.format(line).as_bytes();
    let most = second.format(LANES).as_bytes();
    write_pieces(
        sink,
        &[b"stimulus: line ", line, b": more than ", most, b" lanes\n"],
    )
}
