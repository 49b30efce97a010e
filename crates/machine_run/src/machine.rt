//! The run of a whole machine.

ghost use Rattle.std.specs.Prelude.{IfOk, OnErr, OnOk, Option, Some, length, slice_get, ℕ, ◌<◌, ◌≡◌, ◌≤◌};
ghost use Rattle.limits.specs.declared.TheConstants.{MAX_BANKS};
ghost use Rattle.crew_run.specs.Crews.{CanTell};
ghost use Rattle.image_defs.specs.WellFormed.{IsWellFormed};
ghost use Rattle.machine_run.specs.{Shown.AreShown, code.Shown.AreWide, Visits.AreInPlace, Visits.AreVisitsOf};
ghost use Rattle.net_defs.specs.{Time.cycle_count, Valid.IsValidStimulus};
ghost use Rattle.port_host.specs.Rows.{printed_sources};
ghost use Rattle.slot_words.specs.plain.Words.{turns_of};

use crate::crew::Crew;
use crate::rows::{blank_rows, fill_rows};
use crew_run::Gate;
use image_defs::Image;
use net_defs::{CellRow, Rows, Stimulus};
use seen_list::Memory;
use slot_words::Crossbar;
use std::alloc::Global;
use std::marker::{Send, Sync};
use std::sync::Wait;
use std::thread::Threads;

/// Runs the image under the stimulus with so many workers, to the end of all turns, and answers one row
/// for each cycle, of as many cells as the host prints. All cycles are one block. Worker `w` steps the ports `p` of which
/// `p % workers` is `w`, and tells the gate `w` of their turns; the gates past the workers are not used.
/// A refusal comes before any gate is told. It may wait, so what it promises holds if it returns.
///
/// Workers run once all memory is had, in threads where these can be made and gain anything; no contract
/// says either.
pub fn run_machine<R: Threads + Wait + Sync, G: Gate + Send>(
    rt: &R,
    alloc: Global,
    image: &Image,
    stim: &Stimulus,
    banks: u32,
    workers: u32,
    gates: &mut [Option<G>],
) -> Result<Rows, Memory>
    requires image { IsWellFormed image.now }
    requires stimulus { IsValidStimulus stim.now }
    requires columns { stim.now.columns ≡ image.now.columns }
    requires some_banks { 1 ≤ banks }
    requires few_banks { banks ≤ MAX_BANKS }
    requires some_workers { 1 ≤ workers }
    requires enough { workers ≤ length gates.old }
    requires tell { (i : ℕ) (gate : Option G) → i < workers → slice_get gates.old i ≡ Some gate → CanTell G.Gate.own gate }
    ensures rows { IfOk result (λ rows. AreShown image.now stim.now (cycle_count stim.now) rows.rows) }
    ensures visits { OnOk result (AreVisitsOf G.Gate.own (length image.now.ports) (turns_of image.now stim.now) workers gates.old gates.new) }
    ensures refused { OnErr result (gates.new ≡ gates.old) }
    ensures kept { AreInPlace gates.old gates.new }
{
    let cycles = stim.cycles();
    let mut rows = blank_rows(alloc, image, cycles)?;
    let room = rows.rows.as_mut_slice();
    run_rows(rt, alloc, image, stim, banks, workers, gates, room)?;
    Ok(rows)
}

/// Runs as `run_machine` does, into rows that have room for those of all cycles.
fn run_rows<R: Threads + Wait + Sync, G: Gate + Send>(
    rt: &R,
    alloc: Global,
    image: &Image,
    stim: &Stimulus,
    banks: u32,
    workers: u32,
    gates: &mut [Option<G>],
    rows: &mut [CellRow],
) -> Result<(), Memory>
    requires image { IsWellFormed image.now }
    requires stimulus { IsValidStimulus stim.now }
    requires columns { stim.now.columns ≡ image.now.columns }
    requires some_banks { 1 ≤ banks }
    requires few_banks { banks ≤ MAX_BANKS }
    requires some_workers { 1 ≤ workers }
    requires enough { workers ≤ length gates.old }
    requires tell { (i : ℕ) (gate : Option G) → i < workers → slice_get gates.old i ≡ Some gate → CanTell G.Gate.own gate }
    requires room { AreWide (cycle_count stim.now) (length (printed_sources image.now)) rows.old }
    ensures rows { OnOk result (AreShown image.now stim.now (cycle_count stim.now) rows.new) }
    ensures visits { OnOk result (AreVisitsOf G.Gate.own (length image.now.ports) (turns_of image.now stim.now) workers gates.old gates.new) }
    ensures refused { OnErr result (gates.new ≡ gates.old) }
    ensures kept { AreInPlace gates.old gates.new }
{
    let cycles = stim.cycles();
    let (bar, passes) = Crossbar::make(rt, alloc, image, stim, banks)?;
    let mut crew = Crew::new(alloc, &bar, image, stim, passes, workers, cycles.max(1))?;
    crew.run_block(rt, gates);
    fill_rows(rows, crew.host());
    Ok(())
}
