//! The run of a large design.

ghost use Rattle.std.specs.Prelude.{◌≡◌, ◌⊎◌, ◌<◌, ◌≤◌, ℕ, IfOk, OnErr, OnOk, Option, Some, length, slice_get};
ghost use Rattle.limits.specs.declared.TheConstants.{MAX_LARGE_CYCLES, MAX_LARGE_GATES};
ghost use Rattle.crew_run.specs.Crews.{CanTell};
ghost use Rattle.machine_run.specs.Visits.{AreInPlace, AreVisitsOf};
ghost use Rattle.large_run.specs.{code.Designs.IsDesign, Runs.IsSummaryOf, Setting.large_machine};
ghost use Rattle.machine_text.specs.Machines.{ports_of};

use crate::counts::summed_up;
use crate::design::{Design, large_design};
use crew_run::Gate;
use limits::DEFAULT_BANKS;
use machine_run::run_machine;
use seen_list::{Memory, Text};
use std::alloc::Global;
use std::marker::{Send, Sync};
use std::sync::Wait;
use std::thread::Threads;
use yse_compile::inputs::same_inputs;

/// The summary of a run over so many cycles, up to 10,000, of a netlist of so many gates, up to 30,000,
/// with so many workers, each of which tells its gate of the turns that its ports make. Only want of
/// memory is an error. It may wait, so what it promises holds if it returns.
pub fn large<R: Threads + Wait + Sync, G: Gate + Send>(
    rt: &R,
    alloc: Global,
    gates_count: u32,
    cycles: u32,
    workers: u32,
    gates: &mut [Option<G>],
) -> Result<Text, Memory>
    requires few_gates { gates_count ≤ MAX_LARGE_GATES }
    requires few_cycles { cycles ≤ MAX_LARGE_CYCLES }
    requires some_workers { 1 ≤ workers }
    requires enough { workers ≤ length gates.old }
    requires tell { (i : ℕ) (gate : Option G) → i < workers → slice_get gates.old i ≡ Some gate → CanTell G.Gate.own gate }
    ensures summary { IfOk result (IsSummaryOf gates_count cycles) }
    // The ports are those of the machine of large designs, and a cycle is one turn.
    ensures visits { OnOk result (AreVisitsOf G.Gate.own (ports_of large_machine) cycles workers gates.old gates.new) }
    // Memory is refused before the run, or after the whole of it.
    ensures refused { OnErr result ((gates.new ≡ gates.old) ⊎ AreVisitsOf G.Gate.own (ports_of large_machine) cycles workers gates.old gates.new) }
    ensures kept { AreInPlace gates.old gates.new }
{
    let design = large_design(alloc, gates_count, cycles)?;
    summary_of(rt, alloc, gates_count, cycles, &design, workers, gates)
}

/// The summary of a run of a design of so many gates over so many cycles.
fn summary_of<R: Threads + Wait + Sync, G: Gate + Send>(
    rt: &R,
    alloc: Global,
    _gates_count: u32,
    _cycles: u32,
    design: &Design,
    workers: u32,
    gates: &mut [Option<G>],
) -> Result<Text, Memory>
    requires design { IsDesign _gates_count _cycles design.now }
    requires few_gates { _gates_count ≤ MAX_LARGE_GATES }
    requires few_cycles { _cycles ≤ MAX_LARGE_CYCLES }
    requires some_workers { 1 ≤ workers }
    requires enough { workers ≤ length gates.old }
    requires tell { (i : ℕ) (gate : Option G) → i < workers → slice_get gates.old i ≡ Some gate → CanTell G.Gate.own gate }
    ensures summary { IfOk result (IsSummaryOf _gates_count _cycles) }
    ensures visits { OnOk result (AreVisitsOf G.Gate.own (ports_of large_machine) _cycles workers gates.old gates.new) }
    ensures refused { OnErr result ((gates.new ≡ gates.old) ⊎ AreVisitsOf G.Gate.own (ports_of large_machine) _cycles workers gates.old gates.new) }
    ensures kept { AreInPlace gates.old gates.new }
{
    same_inputs();
    let rows = run_machine(
        rt,
        alloc,
        &design.compiled.image,
        &design.rows,
        DEFAULT_BANKS,
        workers,
        gates,
    )?;
    summed_up(alloc, &design.figures, rows.rows.as_slice())
}
