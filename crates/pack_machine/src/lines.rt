//! The lines of all lanes, written from the planes that the host has kept, by one row.

ghost use Rattle.std.specs.Prelude.{IfOk, Some, length, slice_get, ◌+◌, ◌<◌, ◌≡◌, ◌≤◌};
ghost use Rattle.machine_run.specs.Lines.{lines_between};
ghost use Rattle.edge_io.specs.Writing.{Writes};
ghost use Rattle.image_defs.specs.declared.image.Image.{Image};
ghost use Rattle.port_host.specs.Rows.{printed_sources};
ghost use Rattle.stim_text.specs.Lanes.{AreLanes, longest};
ghost use Rattle.pack_machine.specs.{Lines.bytes_of_lane, Lines.bytes_of_lanes, code.Ends.IsHostAtEnd, code.Lines.HasLineRoom, code.Lines.cells_in_lane};

use edge_io::{Sink, WriteNo, write_piece};
use logic_four::V4;
use net_defs::{Netlist, Stimulus};
use pack_run::PackRunning;
use seen_list::{List, Memory};
use std::alloc::Global;
use stim_text::Lanes;
use trace_text::{LaneMark, TraceLine};

/// Room for the line of a lane, for a line of a trace, and for the cells of a row.
#[derive(Drop)]
pub(crate) struct LaneLines {
    pub(crate) mark: LaneMark,
    pub(crate) line: TraceLine,
    pub(crate) row: List<V4>,
}

/// Room for the lines of all lanes of a netlist. No later call takes memory.
pub(crate) fn line_room(alloc: Global, net: &Netlist) -> Result<LaneLines, Memory>
    ensures { IfOk result (λ room. (image : Image) → length net.now.printed ≡ length (printed_sources image) → HasLineRoom net.now image room) }
{
    let mark = LaneMark::new(alloc)?;
    let line = TraceLine::new(alloc, net)?;
    let row = List::filled(alloc, V4::Undef, net.printed.len())?;
    Ok(LaneLines { mark, line, row })
}

/// Fills a row with the cells of a cycle of a lane, which is counted from 1.
fn fill_row(row: &mut List<V4>, host: &PackRunning<'_>, lane: u32, cycle: u32)
    requires host { IsHostAtEnd host.now.image host.now.feed host.now }
    requires lanes { AreLanes host.now.image.columns host.now.feed }
    requires lane { lane < length host.now.feed.lanes }
    requires first { 1 ≤ cycle }
    requires done { cycle ≤ longest host.now.feed }
    requires room { length row.old ≡ length (printed_sources host.now.image) }
    ensures { row.new ≡ cells_in_lane host.now lane cycle }
{
    'columns: for j in 0..row.len() {
        row.set(j, host.cell_at(lane, cycle, j));
    }
}

/// Writes the lines of the first so many cycles of a lane, one line a piece.
fn write_rows<O: Sink>(
    out: &mut O,
    _net: &Netlist,
    room: &mut LaneLines,
    host: &PackRunning<'_>,
    lane: u32,
    cycles: u32,
) -> Result<(), WriteNo>
    requires host { IsHostAtEnd host.now.image host.now.feed host.now }
    requires lanes { AreLanes host.now.image.columns host.now.feed }
    requires lane { lane < length host.now.feed.lanes }
    requires done { cycles ≤ longest host.now.feed }
    requires room { HasLineRoom _net.now host.now.image room.old }
    ensures room { HasLineRoom _net.now host.now.image room.new }
    ensures written { Writes O.Sink.own out.old out.new result (lines_between (cells_in_lane host.now lane) 0 cycles) }
{
    'rows: for c in 0..cycles {
        fill_row(&mut room.row, host, lane, c + 1);
        room.line.row(c + 1, room.row.as_slice());
        write_piece(out, room.line.bytes())?;
    }
    Ok(())
}

/// Writes the line of a lane, and its trace: the header, and the lines of its own cycles.
fn write_lane<O: Sink>(
    out: &mut O,
    net: &Netlist,
    room: &mut LaneLines,
    host: &PackRunning<'_>,
    lane: u32,
    stim: &Stimulus,
) -> Result<(), WriteNo>
    requires host { IsHostAtEnd host.now.image host.now.feed host.now }
    requires lanes { AreLanes host.now.image.columns host.now.feed }
    requires lane { slice_get host.now.feed.lanes lane ≡ Some stim.now }
    requires room { HasLineRoom net.now host.now.image room.old }
    ensures room { HasLineRoom net.now host.now.image room.new }
    ensures written { Writes O.Sink.own out.old out.new result (bytes_of_lane net.now host.now.image (lane + 1) stim.now) }
{
    room.mark.lane(lane + 1);
    write_piece(out, room.mark.bytes())?;
    room.line.header(net);
    write_piece(out, room.line.bytes())?;
    write_rows(out, net, room, host, lane, stim.cycles())
}

/// Writes the lines of all lanes, counted from 1, one line a piece. It takes no memory.
pub(crate) fn write_lanes<O: Sink>(
    out: &mut O,
    net: &Netlist,
    room: &mut LaneLines,
    lanes: &Lanes,
    host: &PackRunning<'_>,
) -> Result<(), WriteNo>
    requires host { IsHostAtEnd host.now.image lanes.now host.now }
    requires lanes { AreLanes host.now.image.columns lanes.now }
    requires room { HasLineRoom net.now host.now.image room.old }
    ensures { Writes O.Sink.own out.old out.new result (bytes_of_lanes net.now host.now.image lanes.now) }
{
    'lanes: for l in 0..lanes.lanes.len() {
        let stim = &lanes.lanes.as_slice()[l];
        write_lane(out, net, room, host, l as u32, stim)?;
    }
    Ok(())
}
