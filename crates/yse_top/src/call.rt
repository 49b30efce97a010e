//! A whole call: its words, its command, and its end.

ghost use Rattle.std.specs.Prelude.{◌≡◌, ◌≤◌, map, length};
ghost use Rattle.std.specs.String.{string_bytes};
ghost use Rattle.cmd_words.specs.Forms.{IsInRange};
ghost use Rattle.edge_io.specs.Writing.{TakesLine};
ghost use Rattle.limits.specs.declared.TheConstants.{MAX_WORKERS};
ghost use Rattle.machine_run.specs.Visits.{AreInPlace};
ghost use Rattle.yse_top.specs.code.Came.{CameTo};
ghost use Rattle.yse_commands.specs.{Ends.MayWrite, Expected.CallFor, Expected.CallOf, Visited.AllCanTell};

use crate::commands::prepare;
use crate::ending::end;
use cmd_words::{Command, WordNo, read_words};
use crew_run::Gate;
use edge_io::{Files, Sink};
use refusals::{Refusal, Status, refuse};
use std::alloc::Global;
use std::marker::{Send, Sync};
use std::sync::Wait;
use std::thread::Threads;

/// Does what the words say, and answers how it ended.
pub fn call<R: Threads + Wait + Sync, F: Files, O: Sink, E: Sink, G: Gate + Send>(
    rt: &R,
    alloc: Global,
    words: &[String],
    files: &mut F,
    out: &mut O,
    err: &mut E,
    gates: &mut [Option<G>],
) -> Status
    requires gates { MAX_WORKERS ≤ length gates.old }
    requires tell { AllCanTell G.Gate.own gates.old }
    ensures came { CameTo G.Gate.own gates.old gates.new F.Files.own files.old files.new (CallFor (map string_bytes words.now))
        result (O.taken out.old) (O.taken out.new) (O.faults out.old) (O.faults out.new)
        (TakesLine (E.taken err.old) (E.taken err.new) (E.faults err.old) (E.faults err.new)) }
    ensures no_output { (MayWrite result → ⊥) → out.new ≡ out.old }
    ensures no_line { result ≡ Status.Done → err.new ≡ err.old }
    ensures in_place { AreInPlace gates.old gates.new }
{
    match read_words(alloc, words) {
        Ok(command) => {
            let status = obey(rt, alloc, &command, files, out, err, gates);
            drop(command);
            status
        }
        Err(WordNo::Usage) => refuse(err, Refusal::Words),
        Err(WordNo::Memory) => refuse(err, Refusal::Memory),
    }
}

/// Does what a command asks for, and answers how it ended.
fn obey<R: Threads + Wait + Sync, F: Files, O: Sink, E: Sink, G: Gate + Send>(
    rt: &R,
    alloc: Global,
    command: &Command,
    files: &mut F,
    out: &mut O,
    err: &mut E,
    gates: &mut [Option<G>],
) -> Status
    requires range { IsInRange command.now }
    requires gates { MAX_WORKERS ≤ length gates.old }
    requires tell { AllCanTell G.Gate.own gates.old }
    ensures came { CameTo G.Gate.own gates.old gates.new F.Files.own files.old files.new (CallOf command.now)
        result (O.taken out.old) (O.taken out.new) (O.faults out.old) (O.faults out.new)
        (TakesLine (E.taken err.old) (E.taken err.new) (E.faults err.old) (E.faults err.new)) }
    ensures no_output { (MayWrite result → ⊥) → out.new ≡ out.old }
    ensures no_line { result ≡ Status.Done → err.new ≡ err.old }
    ensures in_place { AreInPlace gates.old gates.new }
{
    match prepare(rt, alloc, command, files, out, gates) {
        Ok(output) => end(out, err, output),
        Err(refusal) => refuse(err, refusal),
    }
}
