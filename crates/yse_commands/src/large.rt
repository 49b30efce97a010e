//! `large`: the summary of a run of a generated design.

ghost use Rattle.std.specs.Prelude.{[], ◌≤◌, Err, IfOk, Option, length};
ghost use Rattle.limits.specs.declared.TheConstants.{MAX_LARGE_CYCLES, MAX_LARGE_GATES, MAX_WORKERS};
ghost use Rattle.machine_run.specs.Visits.{AreInPlace};
ghost use Rattle.call_steps.specs.Outcome.{Turns};
ghost use Rattle.yse_commands.specs.{Outputs.CanWrite, Refusals.outcome_of, Refusals.written_by, Told.TellsTurns, Visited.AllCanTell};
ghost use Rattle.yse_commands.specs.commands.Large.{RunsLarge};

use crate::output::Output;
use crew_run::Gate;
use large_run::large as run_large;
use refusals::Refusal;
use seen_list::Memory;
use std::alloc::Global;
use std::marker::{Send, Sync};
use std::sync::Wait;
use std::thread::Threads;

/// The summary of a run of the design of so many gates for so many cycles, by so many workers.
pub fn large<'a, R: Threads + Wait + Sync, G: Gate + Send>(
    rt: &R,
    alloc: Global,
    count: u32,
    cycles: u32,
    workers: u32,
    gates: &mut [Option<G>],
) -> Result<Output, Refusal<'a>>
    requires few { count ≤ MAX_LARGE_GATES }
    requires few_cycles { cycles ≤ MAX_LARGE_CYCLES }
    requires some_workers { 1 ≤ workers }
    requires few_workers { workers ≤ MAX_WORKERS }
    requires gates { MAX_WORKERS ≤ length gates.old }
    requires tell { AllCanTell G.Gate.own gates.old }
    ensures comes { (told : Option Turns) × RunsLarge count cycles workers [] (Err (outcome_of told result))
        × TellsTurns G.Gate.own gates.old gates.new (written_by result) told }
    ensures writable { IfOk result CanWrite }
    ensures in_place { AreInPlace gates.old gates.new }
{
    match run_large(rt, alloc, count, cycles, workers, gates) {
        Ok(text) => Ok(Output::Text(text)),
        Err(Memory) => Err(Refusal::Memory),
    }
}
