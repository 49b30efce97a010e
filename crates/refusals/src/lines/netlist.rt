//! The lines of netlists that are refused, and of loops.

ghost use Rattle.std.specs.{Prelude.◌≡◌, Prelude.◌++◌, Prelude.codes, List.flat_map};
ghost use Rattle.edge_io.specs.Writing.{Writes};
ghost use Rattle.net_defs.specs.Canonical.{name_of};
ghost use Rattle.refusals.specs.Lines.{byte_line, loop_line, many_words, netlist_line, text_line, twice_line, undriven_line};

use crate::lines::{write_line_fault, write_memory_line, write_pieces};
use bench_read::{BenchNo, Many};
use bench_text::TextNo;
use edge_io::{Sink, WriteNo, write_piece};
use itoa::Buffer;
use net_defs::{Netlist, name_of};

/// Writes the line of a netlist that is refused.
pub fn write_netlist_line<S: Sink>(sink: &mut S, no: &BenchNo) -> Result<(), WriteNo>
    ensures { Writes S.Sink.own sink.old sink.new
        result (netlist_line no.now) }
{
    match no {
        BenchNo::Text(no) => write_text_line(sink, no),
        BenchNo::Syntax { line } => write_line_fault(sink, b"netlist", *line, b"syntax"),
        BenchNo::UnknownKind { line } => write_line_fault(sink, b"netlist", *line, b"unknown kind"),
        BenchNo::Arity { line } => write_line_fault(
            sink,
            b"netlist",
            *line,
            b"wrong number of operands",
        ),
        BenchNo::DrivenTwice { name, first, line } => {
            write_twice_line(sink, *line, name.as_bytes(), *first)
        }
        BenchNo::Undriven { name, line } => write_undriven_line(sink, *line, name.as_bytes()),
        BenchNo::TooMany { line, what } => write_line_fault(
            sink,
            b"netlist",
            *line,
            many_words(*what),
        ),
        BenchNo::Memory => write_memory_line(sink),
    }
}

fn write_text_line<S: Sink>(sink: &mut S, no: &TextNo) -> Result<(), WriteNo>
    ensures { Writes S.Sink.own sink.old sink.new
        result (text_line no.now) }
{
    match no {
        TextNo::BadByte { line, column } => write_byte_line(sink, *line, *column),
        TextNo::LongName { line } => write_line_fault(sink, b"netlist", *line, b"name too long"),
        TextNo::Memory => write_memory_line(sink),
    }
}

fn many_words(what: Many) -> &'static [u8]
    ensures { result.now ≡ many_words what }
{
    match what {
        Many::Signals => b"too many signals",
        Many::Operands => b"too many operands",
    }
}

#[tactic(auto, unfolding(crate::specs::Lines::byte_line))]
fn write_byte_line<S: Sink>(sink: &mut S, line: u32, column: u32) -> Result<(), WriteNo>
    ensures { Writes S.Sink.own sink.old sink.new
        result (byte_line line column) }
{
    let (mut first, mut second) = (Buffer::new(), Buffer::new());
    let line = first.format(line).as_bytes();
    let column = second.format(column).as_bytes();
    write_pieces(
        sink,
        &[
            b"netlist: line ",
            line,
            b", column ",
            column,
            b": bad byte\n",
        ],
    )
}

#[tactic(auto, unfolding(crate::specs::Lines::twice_line))]
fn write_twice_line<S: Sink>(
    sink: &mut S,
    line: u32,
    name: &[u8],
    first_line: u32,
) -> Result<(), WriteNo>
    ensures { Writes S.Sink.own sink.old sink.new
        result (twice_line line name.now first_line) }
{
    let (mut first, mut second) = (Buffer::new(), Buffer::new());
    let line = first.format(line).as_bytes();
    let first_line = second.format(first_line).as_bytes();
    write_pieces(
        sink,
        &[
            b"netlist: line ",
            line,
            b": ",
            name,
            b" driven twice, first at line ",
            first_line,
            b"\n",
        ],
    )
}

#[tactic(auto, unfolding(crate::specs::Lines::undriven_line))]
fn write_undriven_line<S: Sink>(sink: &mut S, line: u32, name: &[u8]) -> Result<(), WriteNo>
    ensures { Writes S.Sink.own sink.old sink.new
        result (undriven_line line name.now) }
{
    let mut number = Buffer::new();
    let line = number.format(line).as_bytes();
    write_pieces(
        sink,
        &[b"netlist: line ", line, b": ", name, b" has no driver\n"],
    )
}

#[tactic(auto, unfolding(crate::specs::Lines::loop_line))]
pub fn write_loop_line<S: Sink>(sink: &mut S, net: &Netlist, members: &[u32]) -> Result<(), WriteNo>
    ensures { Writes S.Sink.own sink.old sink.new
        result (loop_line net.now members.now) }
{
    write_members(sink, net, members)?;
    write_piece(sink, b"\n")
}

fn write_members<S: Sink>(sink: &mut S, net: &Netlist, members: &[u32]) -> Result<(), WriteNo>
    ensures { Writes S.Sink.own sink.old sink.new result
        (codes "loop:" ++ flat_map (λ s. codes " " ++ name_of net.now s) members.now) }
{
    write_piece(sink, b"loop:")?;
    write_names(sink, net, members)
}

/// Writes the names, a space before each.
fn write_names<S: Sink>(sink: &mut S, net: &Netlist, members: &[u32]) -> Result<(), WriteNo>
    ensures { Writes S.Sink.own sink.old sink.new result
        (flat_map (λ s. codes " " ++ name_of net.now s) members.now) }
{
    'members: for member in members {
        write_pieces(sink, &[b" ", name_of(net, *member)])?;
    }
    Ok(())
}
