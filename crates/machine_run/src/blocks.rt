//! The run.

ghost use Rattle.std.specs.Prelude.{IfOk, OnErr, Option, Some, List, length, slice_get, ℕ, ◌<◌, ◌≡◌, ◌≤◌};
ghost use Rattle.std.specs.Io.KnownBytes.{append_known};
ghost use Rattle.limits.specs.declared.TheConstants.{MAX_BANKS, MAX_CYCLES};
ghost use Rattle.machine_run.specs.Crews.{at_block_end, at_first, rows_at_end, turns_left, turns_made};
ghost use Rattle.machine_run.specs.{Blocks.AreVisitsOfRun, Blocks.window_of, Lines.bytes_of_run, Lines.cells_shown, Lines.lines_between, Stops.StopsInBlock};
ghost use Rattle.machine_run.specs.Visits.{AllCanTellTurns, AreInPlace, AreVisitsBetween};
ghost use Rattle.crew_run.specs.Crews.{CanTell};
ghost use Rattle.edge_io.specs.Writing.{Writes};
ghost use Rattle.image_defs.specs.WellFormed.{IsWellFormed};
ghost use Rattle.net_defs.specs.{Time.cycle_count, Trace.header_line, Valid.IsValidStimulus, declared.netlist.Netlist.Netlist};
ghost use Rattle.port_host.specs.Rows.{printed_sources};
ghost use Rattle.trace_text.specs.Line.{HasRoom, row_room};

use crate::Crew;
use crate::lines::{write_line, write_rows};
use crate::window::window;
use crew_run::Gate;
use edge_io::{Sink, WriteNo};
use image_defs::Image;
use net_defs::{Netlist, Stimulus};
use seen_list::Memory;
use slot_words::Crossbar;
use std::alloc::Global;
use std::marker::{Send, Sync};
use std::sync::Wait;
use std::thread::Threads;
use trace_text::TraceLine;

/// How a run is divided: in how many banks the words of the crossbar stand, at least one, and how many workers step
/// the ports, at least one.
#[derive(Clone, Copy)]
pub struct Division {
    pub banks: u32,
    pub workers: u32,
}

/// Runs the crew to the end of its block, and writes the lines of the block.
fn run_block<R: Threads + Wait + Sync, G: Gate + Send, O: Sink>(
    rt: &R,
    crew: &mut Crew<'_, G>,
    gates: &mut [Option<G>],
    line: &mut TraceLine,
    out: &mut O,
) -> Result<(), WriteNo>
    requires enough { crew.old.workers ≤ length gates.old }
    requires tell { AllCanTellTurns G.Gate.own (turns_left crew.old) crew.old.workers gates.old }
    requires room { row_room (length (printed_sources crew.old.image)) ≤ line.old.room }
    requires cycles { cycle_count crew.old.stimulus ≤ MAX_CYCLES }
    ensures ran { crew.new ≡ at_block_end crew.old }
    ensures visits { AreVisitsBetween G.Gate.own (length crew.old.image.ports) (turns_made crew.old)
        (turns_made crew.new) crew.old.workers gates.old gates.new }
    ensures tell { AllCanTellTurns G.Gate.own (turns_left crew.new) crew.old.workers gates.new }
    ensures kept { AreInPlace gates.old gates.new }
    ensures room { line.new.room ≡ line.old.room }
    ensures written { Writes O.Sink.own out.old out.new result
        (lines_between (cells_shown crew.old.image crew.old.stimulus) crew.old.first_row (rows_at_end crew.old)) }
{
    crew.run_block(rt, gates);
    write_rows(out, line, crew.host())
}

/// Runs block after block, and writes the lines of each before the next one is run.
fn run_all<R: Threads + Wait + Sync, G: Gate + Send, O: Sink>(
    rt: &R,
    cycles: u32,
    crew: &mut Crew<'_, G>,
    gates: &mut [Option<G>],
    line: &mut TraceLine,
    out: &mut O,
) -> Result<(), WriteNo>
    requires begins { crew.old ≡ at_first crew.old.image crew.old.stimulus crew.old.workers (window_of crew.old.image) }
    requires all { cycles ≡ cycle_count crew.old.stimulus }
    requires cycles { cycles ≤ MAX_CYCLES }
    requires enough { crew.old.workers ≤ length gates.old }
    requires tell { AllCanTellTurns G.Gate.own (turns_left crew.old) crew.old.workers gates.old }
    requires room { row_room (length (printed_sources crew.old.image)) ≤ line.old.room }
    ensures written { Writes O.Sink.own out.old out.new result (lines_between (cells_shown crew.old.image crew.old.stimulus) 0 cycles) }
    ensures visits { AreVisitsOfRun G.Gate.own crew.old.image crew.old.stimulus crew.old.workers gates.old gates.new result }
    ensures stopped { (net : Netlist) (before : Option (List ℕ))
        → O.taken out.old ≡ append_known before (header_line net)
        → OnErr result (StopsInBlock net crew.old.image crew.old.stimulus G.Gate.own crew.old.workers gates.old gates.new before (O.taken out.new)) }
    ensures kept { AreInPlace gates.old gates.new }
{
    'runs: loop {
        if let Err(no) = run_block(rt, crew, gates, line, out) {
            return Err(no);
        }
        if crew.host().rows_done() == cycles {
            return Ok(());
        }
        crew.go_on();
    }
}

/// Writes the header, and then runs.
fn write_run<R: Threads + Wait + Sync, G: Gate + Send, O: Sink>(
    rt: &R,
    net: &Netlist,
    cycles: u32,
    crew: &mut Crew<'_, G>,
    gates: &mut [Option<G>],
    line: &mut TraceLine,
    out: &mut O,
) -> Result<(), WriteNo>
    requires begins { crew.old ≡ at_first crew.old.image crew.old.stimulus crew.old.workers (window_of crew.old.image) }
    requires all { cycles ≡ cycle_count crew.old.stimulus }
    requires cycles { cycles ≤ MAX_CYCLES }
    requires enough { crew.old.workers ≤ length gates.old }
    requires tell { AllCanTellTurns G.Gate.own (turns_left crew.old) crew.old.workers gates.old }
    requires printed { length net.now.printed ≡ length (printed_sources crew.old.image) }
    requires room { HasRoom net.now line.old }
    ensures written { Writes O.Sink.own out.old out.new result (bytes_of_run net.now crew.old.image crew.old.stimulus) }
    ensures visits { AreVisitsOfRun G.Gate.own crew.old.image crew.old.stimulus crew.old.workers gates.old gates.new result }
    ensures stopped { OnErr result
        (StopsInBlock net.now crew.old.image crew.old.stimulus G.Gate.own crew.old.workers gates.old gates.new (O.taken out.old) (O.taken out.new)) }
    ensures kept { AreInPlace gates.old gates.new }
{
    line.header(net);
    write_line(out, line)?;
    run_all(rt, cycles, crew, gates, line, out)
}

/// Runs the image under the stimulus with so many workers, and writes the trace: the header with the netlist's
/// printed names, and a line for each cycle, one line a piece. The header is written before the first turn, and
/// the lines of a block as soon as all ports have come to its end. All memory is taken before the first piece;
/// a refusal for want of it comes before any write and before any gate is told. After a fault of writing, which
/// is the inner answer, nothing more is run or written.
///
/// Worker `w` steps the ports `p` of which `p % workers` is `w`, and tells the gate `w` of their turns; the gates
/// past the workers are not used. It may wait, so what it promises holds if it returns.
pub fn run_blocks<R: Threads + Wait + Sync, G: Gate + Send, O: Sink>(
    rt: &R,
    alloc: Global,
    net: &Netlist,
    image: &Image,
    stim: &Stimulus,
    division: Division,
    gates: &mut [Option<G>],
    out: &mut O,
) -> Result<Result<(), WriteNo>, Memory>
    requires image { IsWellFormed image.now }
    requires stimulus { IsValidStimulus stim.now }
    requires columns { stim.now.columns ≡ image.now.columns }
    requires printed { length net.now.printed ≡ length (printed_sources image.now) }
    requires some_banks { 1 ≤ division.banks }
    requires few_banks { division.banks ≤ MAX_BANKS }
    requires some_workers { 1 ≤ division.workers }
    requires enough { division.workers ≤ length gates.old }
    requires tell { (i : ℕ) (gate : Option G) → i < division.workers → slice_get gates.old i ≡ Some gate → CanTell G.Gate.own gate }
    ensures written { IfOk result (λ wrote. Writes O.Sink.own out.old out.new wrote (bytes_of_run net.now image.now stim.now)) }
    ensures visits { IfOk result (AreVisitsOfRun G.Gate.own image.now stim.now division.workers gates.old gates.new) }
    ensures stopped { IfOk result
        (λ wrote. OnErr wrote (StopsInBlock net.now image.now stim.now G.Gate.own division.workers gates.old gates.new (O.taken out.old) (O.taken out.new))) }
    ensures unwritten { OnErr result (out.new ≡ out.old) }
    ensures untold { OnErr result (gates.new ≡ gates.old) }
    ensures kept { AreInPlace gates.old gates.new }
{
    let mut line = TraceLine::new(alloc, net)?;
    let (bar, passes) = Crossbar::make(rt, alloc, image, stim, division.banks)?;
    let window = window(image, net.printed.len());
    let workers = division.workers;
    let mut crew = Crew::new(alloc, &bar, image, stim, passes, workers, window)?;
    let wrote = write_run(rt, net, stim.cycles(), &mut crew, gates, &mut line, out);
    crew.end();
    Ok(wrote)
}
