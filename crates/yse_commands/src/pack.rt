//! `pack`: the traces of up to 30 simulations, by one run of the compiled machine.

ghost use Rattle.std.specs.Prelude.{◌≡◌, ◌≤◌, IfOk, OnErr, Some, length};
ghost use Rattle.net_defs.specs.Valid.{input_count};
ghost use Rattle.cmd_words.specs.Forms.{IsRunInRange};
ghost use Rattle.edge_io.specs.Writing.{Writes};
ghost use Rattle.limits.specs.declared.TheConstants.{MAX_WORKERS};
ghost use Rattle.machine_run.specs.Visits.{AreInPlace};
ghost use Rattle.stim_text.specs.Lanes.{AreLanes};
ghost use Rattle.yse_commands.specs.{Outputs.CanEnd, Outputs.lanes_bytes, Refusals.MayTake, Telling.Comes, Told.TellsTurns, Told.lanes_turns};
ghost use Rattle.yse_commands.specs.{Visited.AllCanTell, commands.Pack.AreLaneTraces, commands.Pack.Packs};

use crate::output::{Output, WrittenLanes};
use call_steps::{
    OnMachine, Runnable, few_bits, few_lane_cells, lanes_for, on_machine, planned_on_machine,
};
use cmd_words::RunWords;
use crew_run::Gate;
use edge_io::{Files, Sink};
use pack_machine::run_pack;
use refusals::Refusal;
use seen_list::Memory;
use std::alloc::Global;
use std::marker::{Send, Sync};
use std::sync::Wait;
use std::thread::Threads;
use stim_text::Lanes;

/// The traces of all lanes of the stimulus file, by one run on the machine of the named file, or on the default
/// machine.
pub fn pack<'a, R: Threads + Wait + Sync, F: Files, O: Sink, G: Gate + Send>(
    rt: &R,
    alloc: Global,
    files: &mut F,
    words: &'a RunWords,
    out: &mut O,
    gates: &mut [Option<G>],
) -> Result<Output, Refusal<'a>>
    requires range { IsRunInRange words.now }
    requires gates { MAX_WORKERS ≤ length gates.old }
    requires tell { AllCanTell G.Gate.own gates.old }
    ensures comes { Comes G.Gate.own F.Files.own files.old files.new gates.old gates.new result (Packs words.now) }
    ensures writable { IfOk result CanEnd }
    ensures written { MayTake O.taken O.faults out.old out.new result }
    ensures in_place { AreInPlace gates.old gates.new }
{
    let planned = planned_on_machine(alloc, files, words)?;
    let design = on_machine(planned);
    few_bits(&design)?;
    let lanes = lanes_for(alloc, files, words, &design)?;
    few_lane_cells(&design, &lanes)?;
    match lane_traces(rt, alloc, words, design, lanes, out, gates) {
        Ok(run) => Ok(Output::Lanes(run)),
        Err(Memory) => Err(Refusal::Memory),
    }
}

/// The run of a design on all lanes, which writes their traces.
fn lane_traces<R: Threads + Wait + Sync, O: Sink, G: Gate + Send>(
    rt: &R,
    alloc: Global,
    words: &RunWords,
    design: OnMachine,
    lanes: Lanes,
    out: &mut O,
    gates: &mut [Option<G>],
) -> Result<WrittenLanes, Memory>
    requires range { IsRunInRange words.now }
    requires lanes { AreLanes (input_count design.net) lanes }
    requires gates { MAX_WORKERS ≤ length gates.old }
    requires tell { AllCanTell G.Gate.own gates.old }
    ensures printed { IfOk result (λ run. AreLaneTraces design.net design.timing lanes (lanes_bytes run)) }
    ensures written { IfOk result (λ run. Writes O.Sink.own out.old out.new run.wrote (lanes_bytes run)) }
    ensures visits { IfOk result (λ run. TellsTurns G.Gate.own gates.old gates.new run.wrote (Some (lanes_turns words.now design lanes))) }
    ensures unwritten { OnErr result (out.new ≡ out.old) }
    ensures refused { OnErr result (gates.new ≡ gates.old) }
    ensures in_place { AreInPlace gates.old gates.new }
{
    let OnMachine { run, .. } = design;
    let Runnable { net, image, .. } = run;
    let wrote = run_pack(rt, alloc, &net, &image, &lanes, words.workers, gates, out)?;
    Ok(WrittenLanes {
        net,
        image,
        lanes,
        wrote,
    })
}
