//! The packed run of a whole machine.

ghost use Rattle.std.specs.Prelude.{IfOk, OnErr, OnOk, Option, Some, length, slice_get, ℕ, ◌*◌, ◌<◌, ◌≡◌, ◌≤◌};
ghost use Rattle.crew_run.specs.Crews.{CanTell};
ghost use Rattle.edge_io.specs.Writing.{Writes};
ghost use Rattle.image_defs.specs.WellFormed.{IsWellFormed};
ghost use Rattle.machine_run.specs.Visits.{AreInPlace, AreVisitsOf};
ghost use Rattle.port_host.specs.Rows.{printed_sources};
ghost use Rattle.stim_text.specs.Lanes.{AreLanes, longest};
ghost use Rattle.pack_machine.specs.{Lines.bytes_of_lanes, code.Crews.at_end, code.Dealt.AreDealt, code.Ends.IsHostAtEnd};

use crate::lines::{line_room, write_lanes};
use crate::seats::PackSeats;
use crew_run::{Gate, Worker, run_with};
use edge_io::{Sink, WriteNo};
use image_defs::Image;
use machine_run::{worker_of, workers_of};
use net_defs::Netlist;
use pack_run::{PackRunning, PackSeated};
use seen_list::{List, Memory};
use slot_words::pack_words::PackBar;
use std::alloc::Global;
use std::marker::{Send, Sync};
use std::sync::Wait;
use std::thread::Threads;
use stim_text::Lanes;

/// Runs the image under all lanes at once with so many workers, through all turns of the longest lane, and then
/// writes for each lane the line with its number and its trace: the header with the netlist's printed names, and a
/// line for each of its own cycles, one line a piece. What is printed is kept as planes until the run is over, and the
/// lines are made of them by one row. All memory is taken before the first turn; a refusal for want of it comes before
/// any write and before any gate is told. After a fault of writing, which is the inner answer, nothing more is written.
///
/// Worker `w` steps the ports `p` of which `p % workers` is `w`, and tells the gate `w` of their turns; the gates past
/// the workers are not used. It may wait, so what it promises holds if it returns.
///
/// Workers run once all memory is had, in threads where these can be made and gain anything; no contract
/// says either.
pub fn run_pack<R: Threads + Wait + Sync, G: Gate + Send, O: Sink>(
    rt: &R,
    alloc: Global,
    net: &Netlist,
    image: &Image,
    lanes: &Lanes,
    workers: u32,
    gates: &mut [Option<G>],
    out: &mut O,
) -> Result<Result<(), WriteNo>, Memory>
    requires image { IsWellFormed image.now }
    requires lanes { AreLanes image.now.columns lanes.now }
    requires printed { length net.now.printed ≡ length (printed_sources image.now) }
    requires some_workers { 1 ≤ workers }
    requires enough { workers ≤ length gates.old }
    requires tell { (i : ℕ) (gate : Option G) → i < workers → slice_get gates.old i ≡ Some gate → CanTell G.Gate.own gate }
    ensures written { IfOk result (λ wrote. Writes O.Sink.own out.old out.new wrote (bytes_of_lanes net.now image.now lanes.now)) }
    ensures visits { OnOk result (AreVisitsOf G.Gate.own (length image.now.ports) (image.now.units * longest lanes.now) workers gates.old gates.new) }
    ensures unwritten { OnErr result (out.new ≡ out.old) }
    ensures refused { OnErr result (gates.new ≡ gates.old) }
    ensures kept { AreInPlace gates.old gates.new }
{
    let mut room = line_room(alloc, net)?;
    let (bar, passes) = PackBar::make(rt, alloc, image, lanes)?;
    let seats = PackSeats {
        bar: &bar,
        image,
        lanes,
        workers,
    };
    let mut crew = workers_of(alloc, &seats, passes, workers)?;
    run_with(rt, crew.as_mut_slice(), gates);
    Ok(write_lanes(
        out,
        net,
        &mut room,
        lanes,
        host(crew.as_slice(), image, lanes),
    ))
}

/// The host, once all ports have made all turns.
fn host<'a, 'b, G>(
    crew: &'b [Worker<PackSeated<'a>, G>],
    image: &Image,
    lanes: &Lanes,
) -> &'b PackRunning<'a>
    requires fits { IsWellFormed image.now }
    requires some { 1 ≤ length crew.now }
    requires dealt { AreDealt (at_end image.now lanes.now (length crew.now)) 0 crew.now }
    ensures { IsHostAtEnd image.now lanes.now result.now }
{
    let host = image.ports.len() - 1;
    let worker = &crew[worker_of(host, crew.len())];
    &worker.members.as_slice()[0].run
}
