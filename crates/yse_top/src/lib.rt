//! The whole program over any store of files and any sinks.
//!
//! ```
//! let status = yse(&rt, alloc, words, &mut files, &mut out, &mut err, gates.as_mut_slice());
//! // of `refer c17.bench c17.stim`: Status::Done, and `out` took "cycle 22 23\n1 10\n2 00\n3 xx\n"
//! ```
#![tactic(auto)]

ghost use Rattle.std.specs.Prelude.{◌≡◌, ◌≢◌, ◌≤◌, ◌↔◌, ℕ, List, None, map, length};
ghost use Rattle.std.specs.{Io.KnownBytes.append_known, String.string_bytes};
ghost use Rattle.edge_io.specs.{Counts.raised, Counts.Rose, Writing.TakesLine};
ghost use Rattle.cmd_words.specs.Asked.{asked};
ghost use Rattle.limits.specs.declared.TheConstants.{MAX_WORKERS};
ghost use Rattle.machine_run.specs.Visits.{AreInPlace};
ghost use Rattle.yse_commands.specs.Ends.{EndsAs, IsDoneOrMemory, KeepsStore, KeepsTaken, MayWrite, AreToldBy};
ghost use Rattle.yse_commands.specs.{Expected.Expected, Told.TellsTurns, Told.wrote_at, Traced.IsOutputOfFiles, Visited.AllCanTell, Visited.TellsGates};
ghost use Rattle.yse_commands.specs.Words.{files_named};
ghost use Rattle.refusals.specs.Lines.{memory_line};
ghost use Rattle.call_steps.specs.{Outcome.Outcome, Readings.Reading, Readings.AreReadings};

mod call;
mod commands;
mod ending;
pub mod law;
mod program;

use call::call;
use crew_run::Gate;
use edge_io::{Files, Sink};
use law::calls_are_proper;
pub use program::{ended, exit_code};
pub use refusals::Status;
use refusals::{Refusal, refuse};
use std::alloc::Global;
use std::marker::{Send, Sync};
use std::sync::Wait;
use std::thread::Threads;

/// Does what the words say. `run`, `refer` and `order` with `NETLIST STIMULUS [--mode rank|unit|mixed]
/// [--last FILE] [--units K] [--init x|0]` simulate the netlist of the one file with the stimulus of the
/// other and write the trace to `out`, one line a piece, the header first; a cycle is K turns, 1 to 4,096,
/// and 1 in rank order. `--last` names the file of the list of gates that read the last turn, in mixed mode
/// and no other. `run` and `order` take `--machine FILE`, the machine that the netlist is compiled
/// for, and `--banks B`, how many turns a port may run ahead of its readers, 1 to 8; `run` takes
/// `--workers N`, the workers that step the machine's ports, 1 to 64, in threads where these can be made and
/// gain anything; `order` takes `--order FILE`, the order of the ports' steps. An order that ends before
/// every port is done writes the rows that are done, and ends with `Unfinished`.
///
/// `plan NETLIST [--machine FILE] [--mode rank|unit|mixed] [--last FILE]` writes the report of the netlist's plan on the machine
/// as one piece, `show NETLIST` the netlist's canonical text, and `large GATES CYCLES [--workers N]` the
/// summary of a run of a generated design. A file has at most 67,108,864 bytes, and a simulation by `refer` or
/// `order` at most 268,435,456 cells (this project's profile). A status other than `Done` writes its line to
/// `err`, and a fault of `err` changes no status. All memory is taken before the first byte of output.
///
/// `compile NETLIST [--machine FILE] [--mode rank|unit|mixed] [--last FILE] [--units K] [--init x|0]` writes the text
/// of the netlist's compiled image as one piece, each place with the item of the netlist that stands there, after
/// the checks of `plan`.
///
/// `run`, `plan` and `compile` take `--homes plain|better`: with `better` nodes move to processors where fewer values
/// cross, and where the design does not fit there, the plain homes are used. `plan --homes better` ends with a line
/// on the crossings of both and on the homes that are used.
///
/// `exec NETLIST IMAGE STIMULUS [--mode rank|unit|mixed] [--last FILE] [--units K] [--init x|0] [--workers N]
/// [--banks B]` reads an image from a file, checks it against the netlist, and runs it as `run` does. Whoever made
/// the image, what is written is the trace of the netlist, since an image that is not well formed, or does not match
/// the netlist's items, is refused. The machine is the image's own: the gates are told of the image's ports.
///
/// `run` and `exec` go block after block: they keep the printed cells of one block of cycles, and write its lines
/// before the next block is begun, so they have no limit on cells. Where inputs and printed names are `n` together, a
/// block has 4,096 cycles, or `268,435,456 / n` where that is less, and one at least. A fault of writing ends
/// the run: no later block is begun.
///
/// `pack NETLIST STIMULI [--machine FILE] [--mode rank|unit|mixed] [--last FILE] [--units K] [--init x|0]
/// [--workers N]` runs up to 30 stimuli at once on the compiled machine, and writes for each the line `lane N` and then
/// its trace. A lane past its own cycles has X at every input. The cells of 30 lanes of as many cycles as the longest
/// are at most 268,435,456, and the memories of the design have at most 16,777,216 bits in all.
///
/// `fault NETLIST STIMULUS [--mode rank|unit|mixed] [--last FILE] [--units K] [--init x|0] [--workers N]
/// [--faults FILE]` lists for each signal and each of 0 and 1, or for each fault of the list, in which cycle and at
/// which printed name it is first seen that the signal is stuck there, and ends with how many of these faults are seen.
/// It takes netlists of at most 65,536 signals.
///
/// `cover NETLIST STIMULUS [--mode rank|unit|mixed] [--last FILE] [--units K] [--init x|0]` lists for each signal
/// whether it was 0, was 1, rose and fell at the ends of the cycles of the reference simulation, and ends with how many
/// signals did all four.
///
/// `help [COMMAND]` writes the form of each command and the statuses, or more of one command. It reads no file.
///
/// Worker `w` tells the gate `w` of each turn that begins of the ports that it steps, which are the ports
/// `p` with `p % N` equal to `w`. Workers wait for one another, so what is promised holds if the call returns.
pub fn yse<R: Threads + Wait + Sync, F: Files, O: Sink, E: Sink, G: Gate + Send>(
    rt: &R,
    alloc: Global,
    words: &[String],
    files: &mut F,
    out: &mut O,
    err: &mut E,
    gates: &mut [Option<G>],
) -> Status
    requires gates { MAX_WORKERS ≤ length gates.old }
    requires tell { AllCanTell G.Gate.own gates.old }

    // After a simulation the output is the trace of the netlist and the stimulus that its files read as; after one of
    // lanes the trace of each; after one of stuck faults where each is first seen; after `cover` the marks of each
    // signal.
    ensures trace { result ≡ Status.Done → (output : List ℕ)
        × (O.taken out.new ≡ append_known (O.taken out.old) output)
        × IsOutputOfFiles (F.bytes files.old) output (asked (map string_bytes words.now)) }

    // The call comes to an outcome that is expected of the words and of what was read, and the gates were told of its
    // turns.
    ensures expected { (readings : List Reading) × (outcome : Outcome)
        × AreReadings (F.names files.old) (F.bytes files.old) (F.counts files.old) (F.counts files.new) outcome.status readings
        × Expected (map string_bytes words.now) readings outcome
        × EndsAs result outcome (O.taken out.old) (O.taken out.new) (O.faults out.old) (O.faults out.new)
        (TakesLine (E.taken err.old) (E.taken err.new) (E.faults err.old) (E.faults err.new))
        × TellsTurns G.Gate.own gates.old gates.new (wrote_at result) outcome.told }

    // Where an end with status 0 is expected of what the files tell, its output is written, but for a fault
    // or want of memory.
    ensures complete { (readings : List Reading) (outcome : Outcome)
        → Expected (map string_bytes words.now) readings outcome → outcome.status ≡ Status.Done
        → AreToldBy (F.names files.old) (F.bytes files.old) readings
        → (Rose (F.counts files.old).faults (F.counts files.new).faults → ⊥)
        → (Rose (O.faults out.old) (O.faults out.new) → ⊥)
        → IsDoneOrMemory result }

    // After a run, by an image of a file or not, the gate of each worker was told of all turns of each of its ports,
    // after a fault of writing of those of a whole number of blocks, and before a refusal of nothing; a run of lanes
    // tells of the turns of the longest lane, `large` tells the gates of its turns, and the other commands tell no gate
    // anything. This follows from `expected`.
    ensures visits { TellsGates G.Gate.own (F.bytes files.old) gates.old gates.new result (asked (map string_bytes words.now)) }

    // Words are refused exactly where they are of no form, unless memory ran out.
    ensures words { result ≢ Status.Memory → (result ≡ Status.Words) ↔ (asked (map string_bytes words.now) ≡ None) }

    // No call of a sink at all.
    ensures no_output { (MayWrite result → ⊥) → out.new ≡ out.old }
    ensures no_line { result ≡ Status.Done → err.new ≡ err.old }

    // The names and the bytes of the files stay; each sink keeps what it had taken, and its count of faults never falls.
    ensures store { KeepsStore (F.names files.old) (F.names files.new) (F.bytes files.old) (F.bytes files.new) }
    ensures out_kept { KeepsTaken (O.taken out.old) (O.taken out.new) (O.faults out.old) (O.faults out.new) }
    ensures err_kept { KeepsTaken (E.taken err.old) (E.taken err.new) (E.faults err.old) (E.faults err.new) }

    // A gate stands in each place where one stood.
    ensures in_place { AreInPlace gates.old gates.new }

    // What the counts show of the status. These follow from `expected`.
    ensures read_fault { result ≡ Status.ReadFault → Rose (F.counts files.old).faults (F.counts files.new).faults }
    ensures write_fault { result ≡ Status.WriteFault → Rose (O.faults out.old) (O.faults out.new) }
    ensures begun { (F.counts files.new).starts
        ≤ raised (F.counts files.old).starts (length (files_named (asked (map string_bytes words.now)))) }
    ensures absent { result ≢ Status.ReadFault → (F.counts files.new).absent_starts ≡ (F.counts files.old).absent_starts }
{
    calls_are_proper();
    call(rt, alloc, words, files, out, err, gates)
}

/// Ends a call for want of memory before its words are read: writes the line to `err`, and answers the
/// status. A fault of `err` changes nothing.
pub fn out_of_memory<E: Sink>(err: &mut E) -> Status
    ensures status { result ≡ Status.Memory }
    ensures line { TakesLine (E.taken err.old) (E.taken err.new) (E.faults err.old) (E.faults err.new) memory_line }
{
    refuse(err, Refusal::Memory)
}
