//! The line and the status of a refusal.

ghost use Rattle.std.specs.Prelude.{◌≡◌};
ghost use Rattle.edge_io.specs.Writing.{TakesLine, Writes};
ghost use Rattle.refusals.specs.Lines.{limit_line, read_fault_line, too_long_line, usage_line, write_fault_line};
ghost use Rattle.refusals.specs.Refusals.{line_of, status_of};

use crate::lines::image::{write_image_line, write_match_line};
use crate::lines::list::{write_faults_line, write_list_line};
use crate::lines::machine::write_machine_line;
use crate::lines::netlist::{write_loop_line, write_netlist_line};
use crate::lines::order::write_order_line;
use crate::lines::overfull::write_overfull_line;
use crate::lines::stimulus::{write_lanes_line, write_stimulus_line};
use crate::lines::{write_memory_line, write_pieces};
use crate::refusal::Refusal;
use crate::status::Status;
use edge_io::{Sink, WriteNo, write_piece};
use itoa::Buffer;
use limits::{MAX_CELLS, MAX_FAULT_SIGNALS, MAX_PACK_BITS, MAX_TEXT_BYTES};

/// Writes the line of a refusal to `err`, and answers its status. A fault of `err` changes nothing.
pub fn refuse<E: Sink>(err: &mut E, refusal: Refusal<'_>) -> Status
    ensures status { result ≡ status_of refusal.entry }
    ensures line { TakesLine (E.taken err.old) (E.taken err.new) (E.faults err.old) (E.faults err.new)
        (line_of refusal.entry) }
{
    let _ = write_line(err, &refusal);
    status_of(&refusal)
}

/// Writes the line of a write fault to `err`, and answers its status. A fault of `err` changes nothing.
pub fn tell_write_fault<E: Sink>(err: &mut E) -> Status
    ensures status { result ≡ Status.WriteFault }
    ensures line { TakesLine (E.taken err.old) (E.taken err.new) (E.faults err.old) (E.faults err.new)
        write_fault_line }
{
    let _ = write_write_fault_line(err);
    Status::WriteFault
}

fn status_of(refusal: &Refusal<'_>) -> Status
    ensures { result ≡ status_of refusal.now }
{
    match refusal {
        Refusal::Words => Status::Words,
        Refusal::ReadFault(_) => Status::ReadFault,
        Refusal::Machine(_) => Status::Machine,
        Refusal::Netlist(_) => Status::Netlist,
        Refusal::Loop(..) => Status::Loop,
        Refusal::Overfull(..) => Status::Overfull,
        Refusal::Stimulus(_) | Refusal::Lanes(_) => Status::Stimulus,
        Refusal::TooLong(_) | Refusal::Cells(_) | Refusal::MemoryBits(_) | Refusal::Signals(_) =>
            Status::Limit,
        Refusal::OrderText(_) => Status::OrderText,
        Refusal::LastList(_) => Status::LastList,
        Refusal::FaultList(_) => Status::FaultList,
        Refusal::ImageText(_) => Status::ImageText,
        Refusal::ImageMatch(_) => Status::ImageMatch,
        Refusal::Memory => Status::Memory,
    }
}

fn write_line<S: Sink>(sink: &mut S, refusal: &Refusal<'_>) -> Result<(), WriteNo>
    ensures { Writes S.Sink.own sink.old sink.new
        result (line_of refusal.now) }
{
    match refusal {
        Refusal::Words => write_usage_line(sink),
        Refusal::ReadFault(file) => write_read_fault_line(sink, file),
        Refusal::TooLong(file) => write_too_long_line(sink, file),
        Refusal::Machine(no) => write_machine_line(sink, no),
        Refusal::Netlist(no) => write_netlist_line(sink, no),
        Refusal::Loop(net, members) => write_loop_line(sink, net, members.as_slice()),
        Refusal::Overfull(net, no) => write_overfull_line(sink, net, no),
        Refusal::Stimulus(no) => write_stimulus_line(sink, no),
        Refusal::Cells(cells) => write_limit_line(sink, b" cells", *cells, MAX_CELLS),
        Refusal::OrderText(no) => write_order_line(sink, no),
        Refusal::LastList(no) => write_list_line(sink, no),
        Refusal::FaultList(no) => write_faults_line(sink, no),
        Refusal::ImageText(no) => write_image_line(sink, no),
        Refusal::ImageMatch(no) => write_match_line(sink, no),
        Refusal::Lanes(no) => write_lanes_line(sink, no),
        Refusal::MemoryBits(bits) => {
            write_limit_line(sink, b" memory bits", *bits, MAX_PACK_BITS)
        }
        Refusal::Signals(signals) => {
            write_limit_line(sink, b" signals", *signals, MAX_FAULT_SIGNALS)
        }
        Refusal::Memory => write_memory_line(sink),
    }
}

#[tactic(auto, unfolding(crate::specs::Lines::usage_line))]
fn write_usage_line<S: Sink>(sink: &mut S) -> Result<(), WriteNo>
    ensures { Writes S.Sink.own sink.old sink.new
        result usage_line }
{
    write_pieces(
        sink,
        &[
            b"usage: yse (run/refer/order) NETLIST STIMULUS [options], ",
            b"yse plan NETLIST [options], yse show NETLIST, ",
            b"yse large GATES CYCLES [options]\n",
        ],
    )
}

#[tactic(auto, unfolding(crate::specs::Lines::read_fault_line))]
fn write_read_fault_line<S: Sink>(sink: &mut S, file: &[u8]) -> Result<(), WriteNo>
    ensures { Writes S.Sink.own sink.old sink.new
        result (read_fault_line file.now) }
{
    write_pieces(sink, &[b"read fault: ", file, b"\n"])
}

#[tactic(auto, unfolding(crate::specs::Lines::too_long_line))]
fn write_too_long_line<S: Sink>(sink: &mut S, file: &[u8]) -> Result<(), WriteNo>
    ensures { Writes S.Sink.own sink.old sink.new
        result (too_long_line file.now) }
{
    let mut number = Buffer::new();
    let most = number.format(MAX_TEXT_BYTES).as_bytes();
    write_pieces(
        sink,
        &[b"limit: ", file, b" has more than ", most, b" bytes\n"],
    )
}

#[tactic(auto, unfolding(crate::specs::Lines::limit_line))]
fn write_limit_line<S: Sink>(sink: &mut S, what: &[u8], size: u64, most: u64) -> Result<(), WriteNo>
    ensures { Writes S.Sink.own sink.old sink.new
        result (limit_line what.now size most) }
{
    let (mut first, mut second) = (Buffer::new(), Buffer::new());
    let size = first.format(size).as_bytes();
    let most = second.format(most).as_bytes();
    write_pieces(sink, &[b"limit: ", size, what, b", at most ", most, b"\n"])
}

#[tactic(auto, unfolding(crate::specs::Lines::write_fault_line))]
fn write_write_fault_line<S: Sink>(sink: &mut S) -> Result<(), WriteNo>
    ensures { Writes S.Sink.own sink.old sink.new
        result write_fault_line }
{
    write_piece(sink, b"write fault\n")
}
