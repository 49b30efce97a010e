//! All workers of a crew, phase after phase.

ghost use Rattle.std.specs.Prelude.{Some, [], length, slice_get, ℕ, ◌<◌, ◌^◌, ◌≡◌, ◌≤◌};
ghost use Rattle.std.specs.Bool.{OnTrue};
ghost use Rattle.crew_run.specs.code.Phases.{AreDone, CanResume, Each, HasBegun, IsResumed};
ghost use Rattle.crew_run.specs.Crews.{AllCanRun, AllHaveRun, CanRun};

use crate::gate::Gate;
use crate::phase::{begin, resume};
use crate::pulse::Pulse;
use crate::solo::run_solo;
use crate::stepper::Stepper;
use crate::worker::Worker;
use std::marker::{Send, Sync};
use std::sync::Wait;
use std::thread;
use std::thread::Threads;

/// The steps of the first phase in the calling thread, for each worker.
const SOLO_STEPS: u64 = 1_000_000;

/// The most steps of such a phase to which they grow.
const MOST_SOLO_STEPS: u64 = 64_000_000;

/// How many times the steps of the phase in the calling thread before it a phase in threads has to make, if
/// the next such phase is to be as short as the first.
const GOOD_GAIN: u64 = 4;

/// The steps after which a worker ends the first phase in threads where no worker has more than few members.
const FEW_STEPS: u64 = 1_000;

/// Whether the worker's members are all done.
fn is_done<S: Stepper, G>(worker: &Worker<S, G>) -> bool
    requires { (k : ℕ) (a : S) → slice_get worker.now.members k ≡ Some a → S.last_turn a ≤ 2 ^ 62 }
    ensures { OnTrue result (AreDone S.Stepper.own worker.now.members) }
{
    let members = worker.members.as_slice();
    'members: for k in 0..members.len() {
        let member = &members[k];
        if member.turn() != member.last_turn() + 1 {
            return false;
        }
    }
    true
}

/// Whether all members of all workers are done.
fn all_done<S: Stepper, G>(workers: &[Worker<S, G>]) -> bool
    requires { (i : ℕ) (w : Worker S G) → slice_get workers.now i ≡ Some w → (k : ℕ) (a : S) → slice_get w.members k ≡ Some a → S.last_turn a ≤ 2 ^ 62 }
    ensures { OnTrue result ((i : ℕ) (w : Worker S G) → slice_get workers.now i ≡ Some w → AreDone S.Stepper.own w.members) }
{
    'workers: for i in 0..workers.len() {
        if !is_done(&workers[i]) {
            return false;
        }
    }
    true
}

/// Whether no worker has more members than the few with which it gains nothing by a thread of its own.
fn are_few<S: Stepper, G>(workers: &[Worker<S, G>]) -> bool {
    workers
        .iter()
        .all(|worker| worker.members.len() <= S::few_members())
}

/// The first phase of all workers, which one ends that has made so many steps.
fn begin_all<R: Threads + Wait + Sync, S: Stepper + Send, G: Gate + Send>(
    rt: &R,
    workers: &mut [Worker<S, G>],
    most_steps: u64,
)
    requires some { 0 < length workers.old }
    requires can { (i : ℕ) (w : Worker S G) → slice_get workers.old i ≡ Some w → CanRun S.Stepper.own G.Gate.own w }
    ensures { Each (HasBegun S.Stepper.own G.Gate.own) workers.old workers.new }
{
    let pulse = Pulse::new(most_steps);
    let threads = workers.len();
    let alone = threads == 1;
    let work = |_: usize, worker: &mut Worker<S, G>|
        requires { CanRun S.Stepper.own G.Gate.own worker.now }
        ensures { HasBegun S.Stepper.own G.Gate.own worker.entry.now worker.exit.now }
    { begin(rt, &pulse, worker, alone) };
    thread::for_each_mut(rt, workers, threads, &work);
}

/// A later phase of all workers in threads. It answers how many steps moved a member.
fn resume_all<R: Threads + Wait + Sync, S: Stepper + Send, G: Gate + Send>(
    rt: &R,
    workers: &mut [Worker<S, G>],
) -> u64
    requires some { 0 < length workers.old }
    requires can { (i : ℕ) (w : Worker S G) → slice_get workers.old i ≡ Some w → CanResume S.Stepper.own G.Gate.own w }
    ensures { Each (IsResumed S.Stepper.own G.Gate.own) workers.old workers.new }
{
    let pulse = Pulse::new(u64::MAX);
    let threads = workers.len();
    let work = |_: usize, worker: &mut Worker<S, G>|
        requires { CanResume S.Stepper.own G.Gate.own worker.now }
        ensures { IsResumed S.Stepper.own G.Gate.own worker.entry.now worker.exit.now }
    { resume(rt, &pulse, worker) };
    thread::for_each_mut(rt, workers, threads, &work);
    pulse.steps()
}

/// The steps of the first phase in the calling thread, by the number of workers. A worker that is alone stays
/// there, and so do workers of few members.
fn first_solo(workers: usize, few: bool) -> u64 {
    if workers == 1 || few {
        return u64::MAX;
    }
    SOLO_STEPS.saturating_mul(workers as u64)
}

/// The steps of the next phase in the calling thread: twice those of the last one, and as many as at first
/// where the threads since then made many times as many.
fn next_solo(workers: usize, steps: u64, in_threads: u64) -> u64 {
    if in_threads > steps.saturating_mul(GOOD_GAIN) {
        return first_solo(workers, false);
    }
    steps.saturating_mul(2).min(MOST_SOLO_STEPS)
}

/// Goes on after a phase in threads that no worker could go on with: a phase of so many steps in the calling
/// thread and, where not all is done by then, another one in threads. It answers the steps of the next phase in the
/// calling thread.
fn go_on<R: Threads + Wait + Sync, S: Stepper + Send, G: Gate + Send>(
    rt: &R,
    workers: &mut [Worker<S, G>],
    steps: u64,
) -> u64
    requires some { 0 < length workers.old }
    requires can { (i : ℕ) (w : Worker S G) → slice_get workers.old i ≡ Some w → CanResume S.Stepper.own G.Gate.own w }
    ensures { Each (IsResumed S.Stepper.own G.Gate.own) workers.old workers.new }
{
    run_solo(workers, steps);
    if all_done(workers) {
        return steps;
    }
    let in_threads = resume_all(rt, workers);
    next_solo(workers.len(), steps, in_threads)
}

/// Runs workers, phase after phase, until all their members are done.
fn run_phases<R: Threads + Wait + Sync, S: Stepper + Send, G: Gate + Send>(
    rt: &R,
    workers: &mut [Worker<S, G>],
)
    requires { AllCanRun S.Stepper.own G.Gate.own workers.old }
    ensures { AllHaveRun S.Stepper.own G.Gate.own workers.old workers.new }
{
    if workers.is_empty() {
        return;
    }
    let few = are_few(workers);
    // in threads: two workers may have to meet at their first turns
    begin_all(rt, workers, if few { FEW_STEPS } else { u64::MAX });
    let mut steps = first_solo(workers.len(), few);
    'phases: for _ in rt.forever() {
        if all_done(workers) {
            return;
        }
        steps = go_on(rt, workers, steps);
    }
    unreachable!()
}

/// How many workers there are up to the last one that has a member.
fn busy_len<S, G>(workers: &[Worker<S, G>]) -> usize
    ensures within { result ≤ length workers.now }
    ensures idle { (i : ℕ) (w : Worker S G) → result ≤ i → slice_get workers.now i ≡ Some w → w.members ≡ [] }
{
    let mut busy = 0;
    'workers: for i in 0..workers.len() {
        if !workers[i].members.is_empty() {
            busy = i + 1;
        }
    }
    busy
}

/// Steps the members of all workers until all are done, in threads of their own or in the calling thread, as
/// the head of the crate tells. Before the first step of each turn of a member its worker tells its gate of the turn. No thread is
/// made for the workers past the last one that has a member.
pub fn run_all<R: Threads + Wait + Sync, S: Stepper + Send, G: Gate + Send>(
    rt: &R,
    workers: &mut [Worker<S, G>],
)
    requires { AllCanRun S.Stepper.own G.Gate.own workers.old }
    ensures { AllHaveRun S.Stepper.own G.Gate.own workers.old workers.new }
{
    let busy = busy_len(workers);
    run_phases(rt, &mut workers[..busy]);
}
