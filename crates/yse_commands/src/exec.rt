//! `exec`: the trace of the reference simulation, by an image from elsewhere.

ghost use Rattle.std.specs.Prelude.{◌≡◌, ◌≤◌, IfOk, length};
ghost use Rattle.cmd_words.specs.Forms.{IsRunInRange};
ghost use Rattle.limits.specs.declared.TheConstants.{MAX_WORKERS};
ghost use Rattle.machine_run.specs.Visits.{AreInPlace};
ghost use Rattle.yse_commands.specs.{Outputs.CanEnd, Refusals.MayTake, Telling.Comes, Visited.AllCanTell, commands.Exec.Executes};

use crate::output::Output;
use crate::steps::by_workers;
use call_steps::{runnable_in, stimulus_in};
use cmd_words::RunWords;
use crew_run::Gate;
use edge_io::{Files, Sink};
use refusals::Refusal;
use seen_list::Memory;
use std::alloc::Global;
use std::marker::{Send, Sync};
use std::sync::Wait;
use std::thread::Threads;

/// The trace of a run of the image of the named file, whoever made the image.
pub fn exec<'a, R: Threads + Wait + Sync, F: Files, O: Sink, G: Gate + Send>(
    rt: &R,
    alloc: Global,
    files: &mut F,
    words: &'a RunWords,
    image: &'a [u8],
    out: &mut O,
    gates: &mut [Option<G>],
) -> Result<Output, Refusal<'a>>
    requires range { IsRunInRange words.now }
    requires gates { MAX_WORKERS ≤ length gates.old }
    requires tell { AllCanTell G.Gate.own gates.old }
    ensures comes { Comes G.Gate.own F.Files.own files.old files.new gates.old gates.new result (Executes words.now image.now) }
    ensures writable { IfOk result CanEnd }
    ensures written { MayTake O.taken O.faults out.old out.new result }
    ensures in_place { AreInPlace gates.old gates.new }
{
    let run = runnable_in(alloc, files, words, image)?;
    let stimulus = stimulus_in(alloc, files, words.stimulus.as_bytes(), &run.net)?;
    match by_workers(rt, alloc, words, run, stimulus, out, gates) {
        Ok(written) => Ok(Output::Written(written)),
        Err(Memory) => Err(Refusal::Memory),
    }
}
