//! Runs of the machine: by workers, by rounds, and in a given order.

ghost use Rattle.machine_text.specs.Machines.{ports_of};
ghost use Rattle.std.specs.Prelude.{◌≡◌, ◌≤◌, IfOk, None, OnErr, Some, length};
ghost use Rattle.edge_io.specs.Writing.{Writes};
ghost use Rattle.machine_run.specs.Visits.{AreInPlace};
ghost use Rattle.net_defs.specs.Trace.{IsTrace};
ghost use Rattle.stim_text.specs.Orders.{IsValidOrder};
ghost use Rattle.cmd_words.specs.Forms.{IsRunInRange};
ghost use Rattle.limits.specs.declared.TheConstants.{MAX_WORKERS};
ghost use Rattle.call_steps.specs.{Designs.Feeds, Designs.IsRunnable, Outcome.telling};
ghost use Rattle.yse_commands.specs.Outputs.{trace_bytes, run_bytes, CanPrint, CanWrite};
ghost use Rattle.yse_commands.specs.{Orders.EndsInOrder, Refusals.ended_with, Told.TellsTurns, Told.run_turns, Visited.AllCanTell};

use crate::output::{Ending, Output, Trace, Written};
use call_steps::{OnMachine, Ready, Runnable};
use cmd_words::RunWords;
use crew_run::Gate;
use edge_io::Sink;
use machine_run::{Division, run_blocks};
use net_defs::Stimulus;
use order_run::{rows_by_order, rows_by_rounds};
use seen_list::Memory;
use std::alloc::Global;
use std::marker::{Send, Sync};
use std::sync::Wait;
use std::thread::Threads;
use stim_text::Order;
use trace_text::TraceLine;

/// The run of a design on its machine, which writes its trace.
pub fn on_workers<R: Threads + Wait + Sync, O: Sink, G: Gate + Send>(
    rt: &R,
    alloc: Global,
    words: &RunWords,
    ready: Ready,
    out: &mut O,
    gates: &mut [Option<G>],
) -> Result<Written, Memory>
    requires range { IsRunInRange words.now }
    requires gates { MAX_WORKERS ≤ length gates.old }
    requires tell { AllCanTell G.Gate.own gates.old }
    ensures printed { IfOk result (λ run. IsTrace ready.placed.net ready.placed.timing ready.stimulus (run_bytes run)) }
    ensures written { IfOk result (λ run. Writes O.Sink.own out.old out.new run.wrote (run_bytes run)) }
    ensures visits { IfOk result (λ run. TellsTurns G.Gate.own gates.old gates.new run.wrote
        (Some (run_turns (ports_of ready.placed.machine) words.now ready.placed.timing ready.placed.net ready.stimulus))) }
    ensures unwritten { OnErr result (out.new ≡ out.old) }
    ensures refused { OnErr result (gates.new ≡ gates.old) }
    ensures in_place { AreInPlace gates.old gates.new }
{
    let Ready { design, stimulus } = ready;
    let OnMachine { run, .. } = design;
    by_workers(rt, alloc, words, run, stimulus, out, gates)
}

/// The run of an image under a stimulus, which writes its trace: workers step the ports, block after block, until
/// they are done, and tell the gates.
pub fn by_workers<R: Threads + Wait + Sync, O: Sink, G: Gate + Send>(
    rt: &R,
    alloc: Global,
    words: &RunWords,
    run: Runnable,
    stimulus: Stimulus,
    out: &mut O,
    gates: &mut [Option<G>],
) -> Result<Written, Memory>
    requires range { IsRunInRange words.now }
    requires run { IsRunnable run }
    requires stimulus { Feeds run.net stimulus }
    requires gates { MAX_WORKERS ≤ length gates.old }
    requires tell { AllCanTell G.Gate.own gates.old }
    ensures printed { IfOk result (λ written. IsTrace run.net run.timing stimulus (run_bytes written)) }
    ensures written { IfOk result (λ written. Writes O.Sink.own out.old out.new written.wrote (run_bytes written)) }
    ensures visits { IfOk result (λ written. TellsTurns G.Gate.own gates.old gates.new written.wrote
        (Some (run_turns (length run.image.ports) words.now run.timing run.net stimulus))) }
    ensures unwritten { OnErr result (out.new ≡ out.old) }
    ensures refused { OnErr result (gates.new ≡ gates.old) }
    ensures in_place { AreInPlace gates.old gates.new }
{
    let Runnable { net, image, .. } = run;
    let division = Division {
        banks: words.banks,
        workers: words.workers,
    };
    let wrote = run_blocks(rt, alloc, &net, &image, &stimulus, division, gates, out)?;
    Ok(Written {
        net,
        image,
        stimulus,
        wrote,
    })
}

/// The trace of a design: all ports step, round after round, until they are done.
pub fn by_rounds(alloc: Global, words: &RunWords, ready: Ready) -> Result<Trace, Memory>
    requires { IsRunInRange words.now }
    ensures printed { IfOk result (λ trace. IsTrace ready.placed.net ready.placed.timing ready.stimulus (trace_bytes trace)) }
    ensures writable { IfOk result CanPrint }
{
    let Ready { design, stimulus } = ready;
    let OnMachine { run, .. } = design;
    let line = TraceLine::new(alloc, &run.net)?;
    let rows = rows_by_rounds(alloc, &run.image, &stimulus, words.banks)?;
    Ok(Trace {
        net: run.net,
        rows,
        line,
    })
}

/// What is done of the trace of a design by the end of an order of its machine's ports.
pub fn by_order(
    alloc: Global,
    words: &RunWords,
    ready: Ready,
    order: &Order,
) -> Result<Output, Memory>
    requires range { IsRunInRange words.now }
    requires order { IsValidOrder (ports_of ready.placed.machine) order.now }
    ensures ended { IfOk result
        (λ output. EndsInOrder order.now words.now.banks ready.placed.homes ready.placed.net ready.placed.machine ready.placed.timing ready.stimulus (telling None (ended_with output))) }
    ensures writable { IfOk result CanWrite }
{
    let Ready { design, stimulus } = ready;
    let OnMachine { run, .. } = design;
    let line = TraceLine::new(alloc, &run.net)?;
    let (rows, ending) = rows_by_order(alloc, &run.image, &stimulus, words.banks, order)?;
    let trace = Trace {
        net: run.net,
        rows,
        line,
    };
    match ending {
        None => Ok(Output::Trace(trace)),
        Some(rows) => {
            let cycles = stimulus.cycles();
            Ok(Output::Unfinished(trace, Ending { rows, cycles }))
        }
    }
}
