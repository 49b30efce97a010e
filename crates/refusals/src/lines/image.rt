//! The lines of image texts that are refused, and of images that do not match a netlist.

ghost use Rattle.std.specs.Prelude.{◌<◌};
ghost use Rattle.edge_io.specs.Writing.{Writes};
ghost use Rattle.refusals.specs.Lines.{column_line, form_line, image_line, match_line, place_line, timing_line};

use crate::lines::{write_line_fault, write_memory_line, write_pieces};
use edge_io::{Sink, WriteNo, write_piece};
use image_check::CheckNo;
use image_file::ImageNo;
use itoa::Buffer;

/// Writes the line of an image text that is refused.
pub fn write_image_line<S: Sink>(sink: &mut S, no: &ImageNo) -> Result<(), WriteNo>
    ensures { Writes S.Sink.own sink.old sink.new
        result (image_line no.now) }
{
    match no {
        ImageNo::Syntax { line } => write_line_fault(sink, b"image", *line, b"syntax"),
        ImageNo::Range { line } => write_line_fault(sink, b"image", *line, b"out of range"),
        ImageNo::Memory => write_memory_line(sink),
    }
}

/// Writes the line of an image that does not match the netlist.
pub fn write_match_line<S: Sink>(sink: &mut S, no: &CheckNo) -> Result<(), WriteNo>
    ensures { Writes S.Sink.own sink.old sink.new
        result (match_line no.now) }
{
    match no {
        CheckNo::Form => write_form_line(sink),
        CheckNo::Timing => write_timing_line(sink),
        CheckNo::Place { port, slot } => write_place_line(sink, *port, *slot),
        CheckNo::Column { column } => write_column_line(sink, *column),
        CheckNo::Memory => write_memory_line(sink),
    }
}

#[tactic(auto, unfolding(crate::specs::Lines::form_line))]
fn write_form_line<S: Sink>(sink: &mut S) -> Result<(), WriteNo>
    ensures { Writes S.Sink.own sink.old sink.new
        result form_line }
{
    write_piece(sink, b"image: not well formed\n")
}

#[tactic(auto, unfolding(crate::specs::Lines::timing_line))]
fn write_timing_line<S: Sink>(sink: &mut S) -> Result<(), WriteNo>
    ensures { Writes S.Sink.own sink.old sink.new
        result timing_line }
{
    write_piece(sink, b"image: timing differs\n")
}

#[tactic(auto, unfolding(crate::specs::Lines::place_line))]
fn write_place_line<S: Sink>(sink: &mut S, port: u32, slot: u32) -> Result<(), WriteNo>
    ensures { Writes S.Sink.own sink.old sink.new
        result (place_line port slot) }
{
    let (mut first, mut second) = (Buffer::new(), Buffer::new());
    let port = first.format(port).as_bytes();
    let slot = second.format(slot).as_bytes();
    write_pieces(
        sink,
        &[b"image: port ", port, b" slot ", slot, b" does not match\n"],
    )
}

#[tactic(auto, unfolding(crate::specs::Lines::column_line))]
fn write_column_line<S: Sink>(sink: &mut S, column: usize) -> Result<(), WriteNo>
    ensures { Writes S.Sink.own sink.old sink.new
        result (column_line column) }
{
    let mut number = Buffer::new();
    let column = number.format(column).as_bytes();
    write_pieces(sink, &[b"image: column ", column, b" does not match\n"])
}
