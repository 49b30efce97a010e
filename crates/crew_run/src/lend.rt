//! A crew whose gates are lent to its workers for the run.

ghost use Rattle.std.specs.Prelude.{OnErr, OnOk, [], length, ◌++◌, ◌∷◌, ◌≡◌, ◌≤◌};
ghost use Rattle.crew_run.specs.Lending.{AllAreReady, AllCanRunWith, AllHaveRunWith, lent};
ghost use Rattle.crew_run.specs.{Crews.AllCanRun, Crews.AreReady, Crews.CanRun, code.Lending.AreSwapped};

use crate::crew::run_all;
use crate::gate::Gate;
use crate::stepper::Stepper;
use crate::worker::Worker;
use seen_list::{List, Memory};
use std::marker::{Send, Sync};
use std::mem;
use std::sync::Wait;
use std::thread::Threads;

/// Gives the worker a gate, and leaves in its place the one that it had.
fn swap_gate<S: Stepper, G: Gate>(worker: &mut Worker<S, G>, gate: &mut Option<G>)
    ensures worker { worker.new ≡ lent worker.old gate.old }
    ensures gate { gate.new ≡ worker.old.gate }
{
    mem::swap(&mut worker.gate, gate);
}

/// Gives each worker the gate in its place, and leaves there the one that it had.
fn swap_gates<S: Stepper, G: Gate>(workers: &mut [Worker<S, G>], gates: &mut [Option<G>])
    requires { length workers.old ≤ length gates.old }
    ensures { AreSwapped (length workers.old) workers.old gates.old workers.new gates.new }
{
    'workers: for i in 0..workers.len() {
        swap_gate(&mut workers[i], &mut gates[i]);
    }
}

/// Runs all workers as `run_all` does, each with the gate in its place in `gates`. The gates are back in
/// their places when it returns, and each worker has again the one that it had.
///
/// A crew can be run again, once its members have turns left: all that it asks of a gate is that the count of a
/// port doesn't pass 2 ^ 63 by the turns that are left.
pub fn run_with<R: Threads + Wait + Sync, S: Stepper + Send, G: Gate + Send>(
    rt: &R,
    workers: &mut [Worker<S, G>],
    gates: &mut [Option<G>],
)
    requires { AllCanRunWith S.Stepper.own G.Gate.own workers.old gates.old }
    ensures { AllHaveRunWith S.Stepper.own G.Gate.own workers.old gates.old workers.new gates.new }
{
    swap_gates(workers, gates);
    run_all(rt, workers);
    swap_gates(workers, gates);
}

/// Adds a worker. Refused, there are the workers of before, and the new one is let go.
pub fn add<S: Stepper, G: Gate>(
    workers: &mut List<Worker<S, G>>,
    worker: Worker<S, G>,
) -> Result<(), Memory>
    ensures added { OnOk result (workers.new ≡ workers.old ++ worker ∷ []) }
    ensures refused { OnErr result (workers.new ≡ workers.old) }
    ensures ready { AllAreReady S.Stepper.own workers.old → AreReady S.Stepper.own worker.members → OnOk result (AllAreReady S.Stepper.own workers.new) }
    ensures can { AllCanRun S.Stepper.own G.Gate.own workers.old → CanRun S.Stepper.own G.Gate.own worker
        → OnOk result (AllCanRun S.Stepper.own G.Gate.own workers.new) }
{
    workers.push(worker)
}
