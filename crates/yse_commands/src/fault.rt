//! `fault`: where stuck faults of a netlist are first seen.

ghost use Rattle.std.specs.Prelude.{◌≡◌, All, IfOk, IfSome, None};
ghost use Rattle.edge_io.specs.Writing.{joined};
ghost use Rattle.net_defs.specs.Valid.{IsFault, IsValid, IsValidStimulus, IsValidTiming};
ghost use Rattle.net_defs.specs.Loops.{AreRanks};
ghost use Rattle.cmd_words.specs.Forms.{IsRunInRange};
ghost use Rattle.yse_commands.specs.commands.Fault.{Faults, IsFaultList, listed_or_all};
ghost use Rattle.yse_commands.specs.{Outputs.CanWrite, Refusals.FilesFollow, Refusals.outcome_of};
ghost use Rattle.yse_commands.specs.code.Ends.{FaultsIn, ListsFaults};

use crate::output::Output;
use call_steps::{Timed, WithRanks, design_from, faults_from, few_signals, ranked, stimulus_in};
use cmd_words::RunWords;
use edge_io::Files;
use fault_sim::{all_faults, fault_lines, fault_list};
use net_defs::{Fault, Netlist, Stimulus, Timing};
use refusals::Refusal;
use seen_list::{List, Memory, Text};
use std::alloc::Global;
use std::marker::Sync;
use std::thread::Threads;

/// The list of the stuck faults of a netlist.
pub fn fault<'a, R: Threads + Sync, F: Files>(
    rt: &R,
    alloc: Global,
    files: &mut F,
    words: &'a RunWords,
) -> Result<Output, Refusal<'a>>
    requires range { IsRunInRange words.now }
    ensures expected { FilesFollow F.Files.own files.old files.new (outcome_of None result) (Faults words.now) }
    ensures writable { IfOk result CanWrite }
{
    let Timed { net, timing } = design_from(alloc, files, words)?;
    let design = ranked(alloc, net, &timing)?;
    faults_of(rt, alloc, files, words, &timing, &design)
}

/// The same of a netlist with its ranks.
fn faults_of<'a, R: Threads + Sync, F: Files>(
    rt: &R,
    alloc: Global,
    files: &mut F,
    words: &'a RunWords,
    timing: &Timing,
    design: &WithRanks,
) -> Result<Output, Refusal<'a>>
    requires range { IsRunInRange words.now }
    requires timing { IsValidTiming timing.now }
    requires valid { IsValid design.now.net }
    requires ranks { AreRanks design.now.net timing.now design.now.ranks }
    ensures expected { FilesFollow F.Files.own files.old files.new (outcome_of None result) (FaultsIn words.now design.now.net timing.now) }
    ensures writable { IfOk result CanWrite }
{
    few_signals(&design.net)?;
    let listed = faults_from(alloc, files, &words.faults, &design.net)?;
    listed_of(rt, alloc, files, words, timing, design, listed)
}

/// The same with the list of faults that was read.
fn listed_of<'a, R: Threads + Sync, F: Files>(
    rt: &R,
    alloc: Global,
    files: &mut F,
    words: &'a RunWords,
    timing: &Timing,
    design: &WithRanks,
    listed: Option<List<Fault>>,
) -> Result<Output, Refusal<'a>>
    requires range { IsRunInRange words.now }
    requires timing { IsValidTiming timing.now }
    requires valid { IsValid design.now.net }
    requires ranks { AreRanks design.now.net timing.now design.now.ranks }
    requires listed { IfSome listed (All (IsFault design.now.net)) }
    ensures expected { FilesFollow F.Files.own files.old files.new (outcome_of None result) (ListsFaults words.now design.now.net timing.now listed) }
    ensures writable { IfOk result CanWrite }
{
    let stimulus = stimulus_in(alloc, files, words.stimulus.as_bytes(), &design.net)?;
    let lines = lines_of(rt, alloc, words, timing, design, listed, &stimulus)?;
    Ok(Output::Lines(lines))
}

/// The lines of the verdicts.
fn lines_of<R: Threads + Sync>(
    rt: &R,
    alloc: Global,
    words: &RunWords,
    timing: &Timing,
    design: &WithRanks,
    listed: Option<List<Fault>>,
    stimulus: &Stimulus,
) -> Result<List<Text>, Memory>
    requires range { IsRunInRange words.now }
    requires timing { IsValidTiming timing.now }
    requires valid { IsValid design.now.net }
    requires ranks { AreRanks design.now.net timing.now design.now.ranks }
    requires listed { IfSome listed (All (IsFault design.now.net)) }
    requires stimulus { IsValidStimulus stimulus.now }
    ensures { IfOk result (λ lines. IsFaultList design.now.net timing.now stimulus.now (listed_or_all design.now.net listed) (joined lines)) }
{
    let (net, ranks) = (&design.net, &design.ranks);
    let faults = listed_or_all(alloc, net, listed)?;
    let some = faults.as_slice();
    let verdicts = fault_list(rt, alloc, net, ranks, timing, stimulus, some, words.workers)?;
    fault_lines(alloc, net, some, verdicts.as_slice())
}

/// The stuck faults of a list, and all of the netlist where there is no list.
fn listed_or_all(
    alloc: Global,
    net: &Netlist,
    listed: Option<List<Fault>>,
) -> Result<List<Fault>, Memory>
    requires valid { IsValid net.now }
    requires listed { IfSome listed (All (IsFault net.now)) }
    ensures are { IfOk result (λ faults. faults ≡ listed_or_all net.now listed) }
    ensures faults { IfOk result (All (IsFault net.now)) }
{
    match listed {
        Some(faults) => Ok(faults),
        None => all_faults(alloc, net),
    }
}
