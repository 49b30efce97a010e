//! The lines of order texts that are refused, and of orders that end before every port is done.

ghost use Rattle.std.specs.Prelude.{◌<◌};
ghost use Rattle.edge_io.specs.Writing.{Writes};
ghost use Rattle.refusals.specs.Lines.{order_line, unfinished_line};

use crate::lines::{write_line_fault, write_memory_line, write_pieces};
use edge_io::{Sink, WriteNo};
use itoa::Buffer;
use stim_text::OrderNo;

/// Writes the line of an order text that is refused.
pub fn write_order_line<S: Sink>(sink: &mut S, no: &OrderNo) -> Result<(), WriteNo>
    ensures { Writes S.Sink.own sink.old sink.new
        result (order_line no.now) }
{
    match no {
        OrderNo::Syntax { line } => write_line_fault(sink, b"order", *line, b"syntax"),
        OrderNo::Port { line } => write_line_fault(sink, b"order", *line, b"no such port"),
        OrderNo::TooLong { line } => write_line_fault(sink, b"order", *line, b"too long"),
        OrderNo::Memory => write_memory_line(sink),
    }
}

/// Writes the line of an order that ended with so many of the rows done.
#[tactic(auto, unfolding(crate::specs::Lines::unfinished_line))]
pub fn write_unfinished_line<S: Sink>(sink: &mut S, rows: u32, cycles: u32) -> Result<(), WriteNo>
    ensures { Writes S.Sink.own sink.old sink.new
        result (unfinished_line rows cycles) }
{
    let (mut first, mut second) = (Buffer::new(), Buffer::new());
    let rows = first.format(rows).as_bytes();
    let cycles = second.format(cycles).as_bytes();
    write_pieces(
        sink,
        &[
            b"order: ended with ",
            rows,
            b" of ",
            cycles,
            b" rows done\n",
        ],
    )
}
