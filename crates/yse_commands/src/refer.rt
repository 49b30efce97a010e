//! `refer`: the trace of the reference simulation.

ghost use Rattle.std.specs.Prelude.{[], ◌≡◌, Err, IfOk, None};
ghost use Rattle.net_defs.specs.{Loops.IsOrder, Valid.IsValid, Valid.IsValidStimulus, Valid.IsValidTiming};
ghost use Rattle.cmd_words.specs.Forms.{IsRunInRange};
ghost use Rattle.yse_commands.specs.{Outputs.CanWrite, Outputs.CanPrint, code.Printed.ArePrinted, Refusals.FilesFollow, Refusals.outcome_of};
ghost use Rattle.yse_commands.specs.commands.Run.{Refers};
ghost use Rattle.yse_commands.specs.code.Ends.{KeepsTrace};

use crate::output::{Output, Trace};
use call_steps::{Design, Timed, design_from, few_cells, ordered, stimulus_in};
use cmd_words::RunWords;
use edge_io::Files;
use net_defs::{Stimulus, Timing};
use ref_sim::refer_in_order;
use refusals::Refusal;
use seen_list::Memory;
use std::alloc::Global;
use trace_text::TraceLine;

/// The trace of a simulation.
pub fn refer<'a, F: Files>(
    alloc: Global,
    files: &mut F,
    words: &'a RunWords,
) -> Result<Output, Refusal<'a>>
    requires { IsRunInRange words.now }
    ensures expected { FilesFollow F.Files.own files.old files.new (outcome_of None result) (Refers words.now) }
    ensures writable { IfOk result CanWrite }
{
    let Timed { net, timing } = design_from(alloc, files, words)?;
    let design = ordered(alloc, net, &timing)?;
    let stimulus = stimulus_in(alloc, files, words.stimulus.as_bytes(), &design.net)?;
    kept(alloc, &timing, design, &stimulus)
}

/// The trace of a simulation under a stimulus, if its cells are few enough to be kept.
fn kept<'a>(
    alloc: Global,
    timing: &Timing,
    design: Design,
    stimulus: &Stimulus,
) -> Result<Output, Refusal<'a>>
    requires timing { IsValidTiming timing.now }
    requires valid { IsValid design.net }
    requires order { IsOrder design.net timing.now design.order }
    requires stimulus { IsValidStimulus stimulus.now }
    ensures expected { KeepsTrace design.net timing.now stimulus.now [] (Err (outcome_of None result)) }
    ensures writable { IfOk result CanWrite }
{
    few_cells(&design.net, stimulus)?;
    let trace = printed(alloc, timing, design, stimulus)?;
    Ok(Output::Trace(trace))
}

/// The printed values of the reference simulation, with room for a line of the trace.
fn printed(
    alloc: Global,
    timing: &Timing,
    design: Design,
    stimulus: &Stimulus,
) -> Result<Trace, Memory>
    requires timing { IsValidTiming timing.now }
    requires valid { IsValid design.net }
    requires order { IsOrder design.net timing.now design.order }
    requires stimulus { IsValidStimulus stimulus.now }
    ensures printed { IfOk result (λ trace. (trace.net ≡ design.net) × ArePrinted design.net timing.now stimulus.now trace.rows) }
    ensures writable { IfOk result CanPrint }
{
    let Design { net, order } = design;
    let line = TraceLine::new(alloc, &net)?;
    let rows = refer_in_order(alloc, &net, timing, stimulus, order)?;
    Ok(Trace { net, rows, line })
}
