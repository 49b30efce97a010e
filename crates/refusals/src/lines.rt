//! The lines that say why a call did not end well. Each is written in pieces, without taking memory.

ghost use Rattle.std.specs.Prelude.{◌≡◌, ◌<◌, length, slice_get, IfSome};
ghost use Rattle.std.specs.List.{flat_map};
ghost use Rattle.edge_io.specs.Writing.{Writes};
ghost use Rattle.refusals.specs.Lines.{line_fault, memory_line};

pub mod image;
pub mod list;
pub mod machine;
pub mod netlist;
pub mod order;
pub mod overfull;
pub mod stimulus;

use edge_io::{Sink, WriteNo, write_piece};
use itoa::Buffer;

/// Writes pieces one after the other, up to the first fault.
pub fn write_pieces<S: Sink>(sink: &mut S, pieces: &[&[u8]]) -> Result<(), WriteNo>
    ensures { Writes S.Sink.own sink.old sink.new
        result (flat_map (λ piece. piece.now) pieces.now) }
{
    'pieces: for i in 0..pieces.len() {
        write_piece(sink, piece_at(pieces, i))?;
    }
    Ok(())
}

fn piece_at<'a>(pieces: &[&'a [u8]], i: usize) -> &'a [u8]
    requires { i < length pieces.now }
    ensures { IfSome (slice_get pieces.now i) (λ piece. result.now ≡ piece.now) }
{
    pieces[i]
}

#[tactic(auto, unfolding(crate::specs::Lines::memory_line))]
pub fn write_memory_line<S: Sink>(sink: &mut S) -> Result<(), WriteNo>
    ensures { Writes S.Sink.own sink.old sink.new
        result memory_line }
{
    write_piece(sink, b"out of memory\n")
}

/// Writes the line of a fault of a line of a text.
#[tactic(auto, unfolding(crate::specs::Lines::line_fault))]
pub fn write_line_fault<S: Sink>(
    sink: &mut S,
    text: &[u8],
    line: u32,
    fault: &[u8],
) -> Result<(), WriteNo>
    ensures { Writes S.Sink.own sink.old sink.new
        result (line_fault text.now line fault.now) }
{
    let mut number = Buffer::new();
    let line = number.format(line).as_bytes();
    write_pieces(sink, &[text, b": line ", line, b": ", fault, b"\n"])
}
