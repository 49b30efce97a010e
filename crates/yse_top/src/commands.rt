//! What a command comes to before anything is written.

ghost use Rattle.std.specs.Prelude.{◌≡◌, ◌≤◌, IfOk, length};
ghost use Rattle.cmd_words.specs.Forms.{IsInRange};
ghost use Rattle.limits.specs.declared.TheConstants.{MAX_WORKERS};
ghost use Rattle.machine_run.specs.Visits.{AreInPlace};
ghost use Rattle.yse_commands.specs.{Expected.CallOf, Outputs.CanEnd, Refusals.MayTake, Telling.Comes, Visited.AllCanTell};

use cmd_words::Command;
use crew_run::Gate;
use edge_io::{Files, Sink};
use refusals::Refusal;
use std::alloc::Global;
use std::marker::{Send, Sync};
use std::sync::Wait;
use std::thread::Threads;
use yse_commands::cover::cover;
use yse_commands::exec::exec;
use yse_commands::fault::fault;
use yse_commands::help::help;
use yse_commands::large::large;
use yse_commands::order::order;
use yse_commands::output::Output;
use yse_commands::pack::pack;
use yse_commands::refer::refer;
use yse_commands::run::run;
use yse_commands::show::show;
use yse_commands::{Sheet, lay_out};

/// The output of a command, and else the refusal. A run has written its output to `out`; else `out` is not called.
pub fn prepare<'a, R: Threads + Wait + Sync, F: Files, O: Sink, G: Gate + Send>(
    rt: &R,
    alloc: Global,
    command: &'a Command,
    files: &mut F,
    out: &mut O,
    gates: &mut [Option<G>],
) -> Result<Output, Refusal<'a>>
    requires range { IsInRange command.now }
    requires gates { MAX_WORKERS ≤ length gates.old }
    requires tell { AllCanTell G.Gate.own gates.old }
    ensures comes { Comes G.Gate.own F.Files.own files.old files.new gates.old gates.new result (CallOf command.now) }
    ensures writable { IfOk result CanEnd }
    ensures written { MayTake O.taken O.faults out.old out.new result }
    ensures in_place { AreInPlace gates.old gates.new }
{
    match command {
        Command::Run(words) => run(rt, alloc, files, words, out, gates),
        Command::Refer(words) => refer(alloc, files, words),
        Command::Order(words) => order(alloc, files, words),
        Command::Plan(words) => lay_out(alloc, files, words, Sheet::Report),
        Command::Compile(words) => lay_out(alloc, files, words, Sheet::Image),
        Command::Exec { words, image } => {
            exec(rt, alloc, files, words, image.as_bytes(), out, gates)
        }
        Command::Pack(words) => pack(rt, alloc, files, words, out, gates),
        Command::Fault(words) => fault(rt, alloc, files, words),
        Command::Cover(words) => cover(alloc, files, words),
        Command::Show { netlist } => show(alloc, files, netlist.as_bytes()),
        Command::Large {
            gates: count,
            cycles,
            workers,
        } => large(rt, alloc, *count, *cycles, *workers, gates),
        Command::Help(topic) => help(alloc, topic),
    }
}
