//! `cover`: which values each signal of a netlist had, and which changes it made.

ghost use Rattle.std.specs.Prelude.{◌≡◌, IfOk, None};
ghost use Rattle.edge_io.specs.Writing.{joined};
ghost use Rattle.net_defs.specs.{Loops.AreRanks, Valid.IsValid, Valid.IsValidStimulus, Valid.IsValidTiming};
ghost use Rattle.cmd_words.specs.Forms.{IsRunInRange};
ghost use Rattle.yse_commands.specs.{Outputs.CanWrite, Refusals.FilesFollow, Refusals.outcome_of};
ghost use Rattle.yse_commands.specs.commands.Cover.{Covers, IsCoverage};
ghost use Rattle.yse_commands.specs.code.Ends.{WritesCoverage};

use crate::output::Output;
use call_steps::{Timed, WithRanks, design_from, ranked, stimulus_in};
use cmd_words::RunWords;
use cover_sim::{cover as marks_of, cover_lines};
use edge_io::Files;
use net_defs::{Stimulus, Timing};
use refusals::Refusal;
use seen_list::{List, Memory, Text};
use std::alloc::Global;

/// The coverage of a simulation: a line for the marks of each signal, and a last one on how many have all.
pub fn cover<'a, F: Files>(
    alloc: Global,
    files: &mut F,
    words: &'a RunWords,
) -> Result<Output, Refusal<'a>>
    requires { IsRunInRange words.now }
    ensures expected { FilesFollow F.Files.own files.old files.new (outcome_of None result) (Covers words.now) }
    ensures writable { IfOk result CanWrite }
{
    let Timed { net, timing } = design_from(alloc, files, words)?;
    let design = ranked(alloc, net, &timing)?;
    coverage_of(alloc, files, words, &timing, &design)
}

/// The same of a netlist with its ranks.
fn coverage_of<'a, F: Files>(
    alloc: Global,
    files: &mut F,
    words: &'a RunWords,
    timing: &Timing,
    design: &WithRanks,
) -> Result<Output, Refusal<'a>>
    requires timing { IsValidTiming timing.now }
    requires valid { IsValid design.now.net }
    requires ranks { AreRanks design.now.net timing.now design.now.ranks }
    ensures expected { FilesFollow F.Files.own files.old files.new (outcome_of None result) (WritesCoverage words.now design.now.net timing.now) }
    ensures writable { IfOk result CanWrite }
{
    let stimulus = stimulus_in(alloc, files, words.stimulus.as_bytes(), &design.net)?;
    let lines = lines_of(alloc, timing, design, &stimulus)?;
    Ok(Output::Lines(lines))
}

/// The lines of the marks.
fn lines_of(
    alloc: Global,
    timing: &Timing,
    design: &WithRanks,
    stimulus: &Stimulus,
) -> Result<List<Text>, Memory>
    requires timing { IsValidTiming timing.now }
    requires valid { IsValid design.now.net }
    requires ranks { AreRanks design.now.net timing.now design.now.ranks }
    requires stimulus { IsValidStimulus stimulus.now }
    ensures { IfOk result (λ lines. IsCoverage design.now.net timing.now stimulus.now (joined lines)) }
{
    let marks = marks_of(alloc, &design.net, &design.ranks, timing, stimulus)?;
    cover_lines(alloc, &design.net, marks.as_slice())
}
