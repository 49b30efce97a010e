//! A whole call with the words that were read, as a program makes it.

ghost use Rattle.std.specs.Prelude.{◌≡◌, ◌≤◌, ℕ, List as Items, Option, MatchOption, length, map};
ghost use Rattle.std.specs.{String.string_bytes, IoError.error_kind, Process.exit_status};
ghost use Rattle.limits.specs.declared.TheConstants.{MAX_WORKERS};
ghost use Rattle.refusals.specs.Statuses.{status_number};
ghost use Rattle.yse_commands.specs.Visited.{AllCanTell};
ghost use Rattle.yse_top.specs.{Given.Gives, code.Given.words_in, Ended.EndsBy, Ended.EndsForMemory};

use crate::{out_of_memory, yse};
use crew_run::Gate;
use edge_io::{Files, Sink};
use refusals::Status;
use seen_list::Memory;
use std::alloc::Global;
use std::io;
use std::io::ErrorKind;
use std::marker::{Send, Sync};
use std::process::ExitCode;
use std::sync::Wait;
use std::thread::Threads;

/// A whole call with the words that were read: the exit status is the number of its status. Words that could not be
/// read count as none; where that was for want of memory, no file is begun, and the status is that of want of memory.
pub fn ended<R: Threads + Wait + Sync, F: Files, O: Sink, E: Sink, G: Gate + Send>(
    rt: &R,
    alloc: Global,
    read: io::Result<Vec<String>>,
    files: &mut F,
    out: &mut O,
    err: &mut E,
    gates: &mut [Option<G>],
) -> ExitCode
    requires gates { MAX_WORKERS ≤ length gates.old }
    requires tell { AllCanTell G.Gate.own gates.old }
    ensures called { (given : Option (Items (Items ℕ)))
        × Gives error_kind ErrorKind.OutOfMemory read given
        × MatchOption given
        (EndsForMemory F.Files.own O.Sink.own E.Sink.own G.Gate.own files.old files.new out.old out.new err.old err.new gates.old gates.new (exit_status result))
        (λ words. EndsBy F.Files.own O.Sink.own E.Sink.own G.Gate.own files.old files.new out.old out.new err.old err.new gates.old gates.new words
        (exit_status result)) }
{
    match words_given(alloc, read) {
        Ok(words) => called(rt, alloc, words.as_slice(), files, out, err, gates),
        Err(Memory) => exit_code(out_of_memory(err)),
    }
}

/// A whole call with these words: the exit status is the number of its status.
fn called<R: Threads + Wait + Sync, F: Files, O: Sink, E: Sink, G: Gate + Send>(
    rt: &R,
    alloc: Global,
    words: &[String],
    files: &mut F,
    out: &mut O,
    err: &mut E,
    gates: &mut [Option<G>],
) -> ExitCode
    requires gates { MAX_WORKERS ≤ length gates.old }
    requires tell { AllCanTell G.Gate.own gates.old }
    ensures { EndsBy F.Files.own O.Sink.own E.Sink.own G.Gate.own files.old files.new out.old out.new err.old err.new gates.old gates.new
        (map string_bytes words.now) (exit_status result) }
{
    exit_code(yse(rt, alloc, words, files, out, err, gates))
}

/// The exit status of a call: the number of its status.
pub fn exit_code(status: Status) -> ExitCode
    ensures { exit_status result ≡ status_number status }
{
    ExitCode::from(status.number())
}

/// The words that were read. Where one isn't UTF-8 there are none, as if none had been given.
fn words_given(alloc: Global, read: io::Result<Vec<String>>) -> Result<Vec<String>, Memory>
    ensures { Gives error_kind ErrorKind.OutOfMemory read (words_in result) }
{
    match read {
        Ok(words) => Ok(words),
        Err(error) if error.kind() == ErrorKind::OutOfMemory => Err(Memory),
        Err(_) => Ok(Vec::new(alloc)),
    }
}
