//! One worker's part of a phase: it tells its gate of the turns that begin, and steps its members.

ghost use Rattle.std.specs.Prelude.{Some, length, slice_get, ℕ, ◌+◌, ◌<◌, ◌^◌, ◌≡◌, ◌≢◌, ◌≤◌};
ghost use Rattle.limits.specs.declared.TheConstants.{MAX_PORTS};
ghost use Rattle.crew_run.specs.code.Phases.{AreBegun, AreStepped, CanResume, CanStep, HasBegun, HasRoomFor, IsBegun, IsResumed, IsStepped};
ghost use Rattle.crew_run.specs.{Crews.AreReady, Crews.CanRun, Crews.HasRoomToRun, Visits.IsUntold};

use crate::gate::Gate;
use crate::pace::Pace;
use crate::pulse::{Pulse, Watch};
use crate::stepper::{Step, Stepper};
use crate::worker::Worker;
use std::sync::Wait;

/// The most steps that a member makes in one round.
pub const STEPS_A_ROUND: u32 = 64;

/// What a round came to, or the steps of one member in it.
#[derive(Clone, Copy)]
pub struct Progress {
    /// The steps by which a member moved.
    pub moved: u64,
    /// The turn of the member furthest behind.
    pub earliest: u64,
    /// The latest turn that a member is in.
    pub latest: u64,
    /// Each member was found done, or halted by its pace.
    pub arrived: bool,
}

impl Progress {
    /// That of no member.
    pub fn none() -> Progress {
        Progress {
            moved: 0,
            earliest: u64::MAX,
            latest: 0,
            arrived: true,
        }
    }

    /// That of one member.
    fn of<S: Stepper>(member: &S, moved: u64, arrived: bool) -> Progress {
        let turn = member.turn();
        Progress {
            moved,
            earliest: turn,
            latest: turn,
            arrived,
        }
    }

    /// That of the members of both.
    pub fn and(self, other: Progress) -> Progress {
        Progress {
            moved: self.moved.saturating_add(other.moved),
            earliest: self.earliest.min(other.earliest),
            latest: self.latest.max(other.latest),
            arrived: self.arrived && other.arrived,
        }
    }
}

/// Tells the gate of the turn that the member is in, where it has one left.
fn tell_turn<S: Stepper, G: Gate>(member: &S, gate: &mut G)
    requires port { S.port member.now < MAX_PORTS }
    requires within { S.turn member.now ≤ S.last_turn member.now + 1 }
    requires room { HasRoomToRun S.Stepper.own G.Gate.own member.now gate.old }
    ensures begun { IsBegun S.Stepper.own G.Gate.own member.now gate.old gate.new }
    ensures others { (q : ℕ) → q ≢ S.port member.now → IsUntold G.Gate.own q gate.old gate.new }
{
    let turn = member.turn();
    if turn <= member.last_turn() {
        gate.at(member.port(), turn);
    }
}

/// Tells the gate of the turn of each member that has one left.
fn tell_turns<S: Stepper, G: Gate>(members: &[S], gate: &mut G)
    requires ready { AreReady S.Stepper.own members.now }
    requires room { (k : ℕ) (a : S) → slice_get members.now k ≡ Some a → HasRoomToRun S.Stepper.own G.Gate.own a gate.old }
    ensures { AreBegun S.Stepper.own G.Gate.own (length members.now) members.now gate.old gate.new }
{
    for k in 0..members.len() {
        tell_turn(&members[k], gate);
    }
}

/// Makes one step of a member, and tells the gate where by it a turn begins.
#[inline(always)]
fn step_once<S: Stepper, G: Gate>(member: &mut S, gate: &mut G) -> Step
    requires port { S.port member.old < MAX_PORTS }
    requires within { S.turn member.old ≤ S.last_turn member.old + 1 }
    requires small { S.last_turn member.old ≤ 2 ^ 62 }
    requires room { HasRoomFor S.Stepper.own G.Gate.own member.old gate.old }
    ensures { IsStepped S.Stepper.own G.Gate.own member.old gate.old member.new gate.new }
{
    let before = member.turn();
    let step = member.step();
    let turn = member.turn();
    if turn != before && turn <= member.last_turn() {
        gate.at(member.port(), turn);
    }
    step
}

/// Steps a member until its pace halts it, or it waits, is done, or has made so many steps.
pub fn step_member<S: Stepper, G: Gate, P: Pace>(
    member: &mut S,
    gate: &mut G,
    steps: u32,
    pace: &P,
) -> Progress
    requires port { S.port member.old < MAX_PORTS }
    requires within { S.turn member.old ≤ S.last_turn member.old + 1 }
    requires small { S.last_turn member.old ≤ 2 ^ 62 }
    requires room { HasRoomFor S.Stepper.own G.Gate.own member.old gate.old }
    ensures { IsStepped S.Stepper.own G.Gate.own member.old gate.old member.new gate.new }
{
    let mut moved = 0;
    'steps: for k in 0..steps {
        if pace.halts(member.turn()) {
            return Progress::of(member, moved, true);
        }
        match step_once(member, gate) {
            Step::Moved => moved = u64::from(k) + 1,
            Step::NotYet => return Progress::of(member, moved, false),
            Step::Done => return Progress::of(member, moved, true),
        }
        pace.moved();
    }
    Progress::of(member, moved, false)
}

/// Steps each member.
fn run_round<S: Stepper, G: Gate>(members: &mut [S], gate: &mut G, pulse: &Pulse) -> Progress
    requires { CanStep S.Stepper.own G.Gate.own members.old gate.old }
    ensures { AreStepped S.Stepper.own G.Gate.own members.old gate.old members.new gate.new }
{
    let mut progress = Progress::none();
    'members: for k in 0..members.len() {
        let member = &mut members[k];
        progress = progress.and(step_member(member, gate, STEPS_A_ROUND, pulse));
    }
    progress
}

/// Steps the members round after round until all are done, or the phase is over for those that wait.
fn run_rounds<R: Wait, S: Stepper, G: Gate>(rt: &R, members: &mut [S], gate: &mut G, pulse: &Pulse)
    requires { CanStep S.Stepper.own G.Gate.own members.old gate.old }
    ensures { AreStepped S.Stepper.own G.Gate.own members.old gate.old members.new gate.new }
{
    let mut watch = Watch::new();
    'rounds: for _ in rt.forever() {
        let progress = run_round(members, gate, pulse);
        if watch.leaves(progress, pulse) {
            return;
        }
    }
    unreachable!()
}

/// The rounds of a first phase. A worker that is alone makes none: it goes on as in a phase of the calling
/// thread.
fn begin_rounds<R: Wait, S: Stepper, G: Gate>(
    rt: &R,
    members: &mut [S],
    gate: &mut G,
    pulse: &Pulse,
    alone: bool,
)
    requires { CanStep S.Stepper.own G.Gate.own members.old gate.old }
    ensures { AreStepped S.Stepper.own G.Gate.own members.old gate.old members.new gate.new }
{
    if alone {
        return;
    }
    run_rounds(rt, members, gate, pulse);
}

/// A worker's first phase.
pub fn begin<R: Wait, S: Stepper, G: Gate>(
    rt: &R,
    pulse: &Pulse,
    worker: &mut Worker<S, G>,
    alone: bool,
)
    requires { CanRun S.Stepper.own G.Gate.own worker.old }
    ensures { HasBegun S.Stepper.own G.Gate.own worker.old worker.new }
{
    let Some(mut gate) = worker.gate.take() else {
        return;
    };
    tell_turns(worker.members.as_slice(), &mut gate);
    begin_rounds(rt, worker.members.as_mut_slice(), &mut gate, pulse, alone);
    worker.gate = Some(gate);
}

/// A later phase of a worker.
pub fn resume<R: Wait, S: Stepper, G: Gate>(rt: &R, pulse: &Pulse, worker: &mut Worker<S, G>)
    requires { CanResume S.Stepper.own G.Gate.own worker.old }
    ensures { IsResumed S.Stepper.own G.Gate.own worker.old worker.new }
{
    let Some(mut gate) = worker.gate.take() else {
        return;
    };
    run_rounds(rt, worker.members.as_mut_slice(), &mut gate, pulse);
    worker.gate = Some(gate);
}
