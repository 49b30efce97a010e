//! The memories at an edge: the words that they read, and those that they write.

ghost use Rattle.std.specs.Prelude.{◌≡◌, ◌≢◌, ◌<◌, ◌≤◌, ℕ, [], length, slice_index_or, IfOk};
ghost use Rattle.logic_four.specs.{declared.V4.V4, Memory.HasShape};
ghost use Rattle.net_defs.specs.Valid.{IsValid};
ghost use Rattle.net_ops.specs.{Lanes.lane_row, Places.place_count, code.Places.last_row, Rams.FitsPort, Rams.ArePorts, States.AreShaped};
ghost use Rattle.net_ops.specs.code.{Rams.ReadsWithin, Rams.act_over, States.HasActed, Values.IsStagedTo, Values.Puts};

use crate::values::{gather, put_all};
use crate::wire::Wire;
use array_cells::Cells;
use logic_four::V4;
use net_defs::{Block, Netlist};
use seen_list::{List, Memory};
use std::alloc::Global;

/// Room for what a memory takes at an edge, and for the bits that it answers.
#[derive(Drop)]
pub struct RamPort {
    pub(crate) address: List<V4>,
    pub(crate) word: List<V4>,
    pub(crate) outs: List<V4>,
}

/// A port for each memory.
pub fn make_ports(alloc: Global, net: &Netlist) -> Result<List<RamPort>, Memory>
    ensures { IfOk result (ArePorts net.now) }
{
    let mut ports = List::new(alloc);
    for block in net.blocks.as_slice() {
        ports.push(make_port(alloc, block)?)?;
    }
    Ok(ports)
}

fn make_port(alloc: Global, block: &Block) -> Result<RamPort, Memory>
    ensures { IfOk result (FitsPort block.now) }
{
    Ok(RamPort {
        address: List::filled(alloc, V4::Undef, block.address.len())?,
        word: List::filled(alloc, V4::Undef, block.word.len())?,
        outs: List::filled(alloc, V4::Undef, block.word.len())?,
    })
}

/// Takes the memories of each lane that runs through an edge. They read what the signals had in the last turn. The
/// ports are those of `make_ports`.
pub(crate) fn edge_memories<W: Wire>(
    row: &mut List<W>,
    memories: &mut List<List<Cells>>,
    ports: &mut List<RamPort>,
    net: &Netlist,
)
    requires valid { IsValid net.now }
    requires long { length row.old ≡ place_count net.now }
    requires few { length memories.old ≤ W.lanes }
    requires shaped { (l : ℕ) → l < length memories.old → AreShaped net.now (slice_index_or memories.old l []) }
    requires ports { ArePorts net.now ports.old }
    ensures long { length row.new ≡ length row.old }
    ensures lanes { length memories.new ≡ length memories.old }
    ensures each { (l : ℕ) → l < length memories.old → HasActed net.now (lane_row W.lane l row.old)
        (lane_row W.lane l row.new) (slice_index_or memories.old l []) (slice_index_or memories.new l []) }
    ensures ports { ArePorts net.now ports.new }
{
    'lanes: for l in 0..memories.len() {
        edge_lane(row, &mut memories.as_mut_slice()[l], ports, net, l);
    }
}

/// Takes the memories of one lane through an edge.
fn edge_lane<W: Wire>(
    row: &mut List<W>,
    words: &mut List<Cells>,
    ports: &mut List<RamPort>,
    net: &Netlist,
    l: usize,
)
    requires valid { IsValid net.now }
    requires long { length row.old ≡ place_count net.now }
    requires lane { l < W.lanes }
    requires shaped { AreShaped net.now words.old }
    requires ports { ArePorts net.now ports.old }
    ensures long { length row.new ≡ length row.old }
    ensures acted { HasActed net.now (lane_row W.lane l row.old) (lane_row W.lane l row.new) words.old words.new }
    ensures others { (k : ℕ) → k < W.lanes → k ≢ l → lane_row W.lane k row.new ≡ lane_row W.lane k row.old }
    ensures ports { ArePorts net.now ports.new }
{
    'memories: for number in 0..net.blocks.len() {
        edge_memory(
            &mut words.as_mut_slice()[number],
            &mut ports.as_mut_slice()[number],
            row,
            &net.blocks.as_slice()[number],
            net.signals.len(),
            l,
        );
    }
}

/// What a memory does at an edge: it reads the values from the place `base` on, answers, and writes. What it
/// answers goes into the places of the signals that it drives.
fn edge_memory<W: Wire>(
    cells: &mut Cells,
    port: &mut RamPort,
    row: &mut List<W>,
    block: &Block,
    base: usize,
    l: usize,
)
    requires lane { l < W.lanes }
    requires shape { HasShape (length block.now.address) (length block.now.word) cells.old }
    requires fits { FitsPort block.now port.old }
    requires within { ReadsWithin base (length row.old) block.now }
    ensures words { cells.new ≡ (act_over block.now base (lane_row W.lane l row.old) cells.old).words }
    ensures signals { length row.new ≡ length row.old }
    ensures outputs { (f : ℕ → V4)
        → IsStagedTo block.now.outs f (length block.now.outs) (act_over block.now base (lane_row W.lane l row.old) cells.old).outputs
        → Puts block.now.outs f (length block.now.outs) (lane_row W.lane l row.old) (lane_row W.lane l row.new) }
    ensures others { (k : ℕ) → k < W.lanes → k ≢ l → lane_row W.lane k row.new ≡ lane_row W.lane k row.old }
    ensures fits { FitsPort block.now port.new }
{
    answer(cells, port, row.as_slice(), block, base, l);
    put_all(row, block.outs.as_slice(), port.outs.as_slice(), l);
}

/// Reads, answers into the port, and writes.
fn answer<W: Wire>(
    cells: &mut Cells,
    port: &mut RamPort,
    row: &[W],
    block: &Block,
    base: usize,
    l: usize,
)
    requires lane { l < W.lanes }
    requires shape { HasShape (length block.now.address) (length block.now.word) cells.old }
    requires fits { FitsPort block.now port.old }
    requires within { ReadsWithin base (length row.now) block.now }
    ensures words { cells.new ≡ (act_over block.now base (lane_row W.lane l row.now) cells.old).words }
    ensures outputs { port.new.outs ≡ (act_over block.now base (lane_row W.lane l row.now) cells.old).outputs }
    ensures fits { FitsPort block.now port.new }
{
    let enable = row[base + block.we as usize].at(l);
    gather(
        port.address.as_mut_slice(),
        row,
        base,
        block.address.as_slice(),
        l,
    );
    gather(
        port.word.as_mut_slice(),
        row,
        base,
        block.word.as_slice(),
        l,
    );
    cells.edge(
        enable,
        port.address.as_slice(),
        port.word.as_slice(),
        port.outs.as_mut_slice(),
    );
}
