//! Lines that were made before.

ghost use Rattle.edge_io.specs.Writing.{joined, Writes};

use edge_io::{Sink, WriteNo, write_piece};
use seen_list::Text;

/// Writes the lines, each as one piece. It takes no memory.
pub fn write_texts<O: Sink>(out: &mut O, lines: &[Text]) -> Result<(), WriteNo>
    ensures { Writes O.Sink.own out.old out.new result (joined lines.now) }
{
    'lines: for i in 0..lines.len() {
        if let Err(no) = write_piece(out, lines[i].as_bytes()) {
            return Err(no);
        }
    }
    Ok(())
}
