//! `run`: the trace of the reference simulation, by workers on the compiled machine.

ghost use Rattle.std.specs.Prelude.{◌≡◌, ◌≤◌, IfOk, length};
ghost use Rattle.cmd_words.specs.Forms.{IsRunInRange};
ghost use Rattle.limits.specs.declared.TheConstants.{MAX_WORKERS};
ghost use Rattle.machine_run.specs.Visits.{AreInPlace};
ghost use Rattle.yse_commands.specs.{Outputs.CanEnd, Refusals.MayTake, Telling.Comes, Visited.AllCanTell, commands.Run.Runs};

use crate::output::Output;
use crate::steps::on_workers;
use call_steps::ready_on_machine;
use cmd_words::RunWords;
use crew_run::Gate;
use edge_io::{Files, Sink};
use refusals::Refusal;
use seen_list::Memory;
use std::alloc::Global;
use std::marker::{Send, Sync};
use std::sync::Wait;
use std::thread::Threads;

/// The trace of a run on the machine of the named file, or on the default machine.
pub fn run<'a, R: Threads + Wait + Sync, F: Files, O: Sink, G: Gate + Send>(
    rt: &R,
    alloc: Global,
    files: &mut F,
    words: &'a RunWords,
    out: &mut O,
    gates: &mut [Option<G>],
) -> Result<Output, Refusal<'a>>
    requires range { IsRunInRange words.now }
    requires gates { MAX_WORKERS ≤ length gates.old }
    requires tell { AllCanTell G.Gate.own gates.old }
    ensures comes { Comes G.Gate.own F.Files.own files.old files.new gates.old gates.new result (Runs words.now) }
    ensures writable { IfOk result CanEnd }
    ensures written { MayTake O.taken O.faults out.old out.new result }
    ensures in_place { AreInPlace gates.old gates.new }
{
    let ready = ready_on_machine(alloc, files, words)?;
    match on_workers(rt, alloc, words, ready, out, gates) {
        Ok(written) => Ok(Output::Written(written)),
        Err(Memory) => Err(Refusal::Memory),
    }
}
