//! The lines of designs that do not fit a machine.

ghost use Rattle.std.specs.Prelude.{◌≡◌};
ghost use Rattle.edge_io.specs.Writing.{Writes};
ghost use Rattle.refusals.specs.Lines.{bits_line, functions_line, memory_name as name_of_memory, needed_line, overfull_line};

use crate::lines::netlist::write_loop_line;
use crate::lines::{write_memory_line, write_pieces};
use edge_io::{Sink, WriteNo};
use itoa::Buffer;
use net_defs::{Netlist, name_of};
use yse_compile::CompNo;

/// Writes the line of a design that does not fit.
pub fn write_overfull_line<S: Sink>(sink: &mut S, net: &Netlist, no: &CompNo) -> Result<(), WriteNo>
    ensures { Writes S.Sink.own sink.old sink.new
        result (overfull_line net.now no.now) }
{
    match no {
        CompNo::Loop(members) => write_loop_line(sink, net, members.as_slice()),
        CompNo::Bits {
            block,
            needed,
            left,
        } => write_bits_line(sink, memory_name(net, *block), *needed, *left),
        CompNo::Slots { needed, limit } => write_needed_line(sink, b"slots", *needed, *limit),
        CompNo::Functions {
            port,
            needed,
            limit,
        } => write_functions_line(sink, *port, *needed, *limit),
        CompNo::Memory => write_memory_line(sink),
        CompNo::Nodes { needed, limit } => write_needed_line(sink, b"nodes", *needed, *limit),
    }
}

/// The name of a memory, which is that of its first output.
fn memory_name(net: &Netlist, block: u32) -> &[u8]
    ensures { result.now ≡ name_of_memory net.now block }
{
    match net.blocks.get(block as usize) {
        Some(memory) => {
            let first = match memory.outs.get(0) {
                Some(first) => *first,
                None => 0,
            };
            name_of(net, first)
        }
        None => b"",
    }
}

#[tactic(auto, unfolding(crate::specs::Lines::bits_line))]
fn write_bits_line<S: Sink>(
    sink: &mut S,
    name: &[u8],
    needed: u32,
    left: u32,
) -> Result<(), WriteNo>
    ensures { Writes S.Sink.own sink.old sink.new
        result (bits_line name.now needed left) }
{
    let (mut first, mut second) = (Buffer::new(), Buffer::new());
    let needed = first.format(needed).as_bytes();
    let left = second.format(left).as_bytes();
    write_pieces(
        sink,
        &[
            b"overfull: bits of memory ",
            name,
            b": ",
            needed,
            b" needed, ",
            left,
            b" left\n",
        ],
    )
}

#[tactic(auto, unfolding(crate::specs::Lines::needed_line))]
fn write_needed_line<S: Sink>(
    sink: &mut S,
    what: &[u8],
    needed: u32,
    limit: u32,
) -> Result<(), WriteNo>
    ensures { Writes S.Sink.own sink.old sink.new
        result (needed_line what.now needed limit) }
{
    let (mut first, mut second) = (Buffer::new(), Buffer::new());
    let needed = first.format(needed).as_bytes();
    let limit = second.format(limit).as_bytes();
    write_pieces(
        sink,
        &[
            b"overfull: ",
            what,
            b": ",
            needed,
            b" needed, limit is ",
            limit,
            b"\n",
        ],
    )
}

#[tactic(auto, unfolding(crate::specs::Lines::functions_line))]
fn write_functions_line<S: Sink>(
    sink: &mut S,
    port: u32,
    needed: u32,
    limit: u32,
) -> Result<(), WriteNo>
    ensures { Writes S.Sink.own sink.old sink.new
        result (functions_line port needed limit) }
{
    let (mut first, mut second, mut third) = (Buffer::new(), Buffer::new(), Buffer::new());
    let port = first.format(port).as_bytes();
    let needed = second.format(needed).as_bytes();
    let limit = third.format(limit).as_bytes();
    write_pieces(
        sink,
        &[
            b"overfull: functions of logic port ",
            port,
            b": ",
            needed,
            b" needed, limit is ",
            limit,
            b"\n",
        ],
    )
}
