//! Phases in the calling thread alone, which goes round the members of all workers.

ghost use Rattle.std.specs.Prelude.{Some, slice_get, ℕ, ◌≡◌};
ghost use Rattle.crew_run.specs.code.Phases.{CanResume, Each, IsResumed};

use crate::course::{Course, Visit};
use crate::gate::Gate;
use crate::pace::{ByVisits, Pace, UpTo};
use crate::phase::{Progress, STEPS_A_ROUND};
use crate::stepper::Stepper;
use crate::turns::step_one;
use crate::worker::Worker;
use limits::MAX_PORTS;

/// Some steps of a member of a worker, of whose turns its own gate is told.
fn visit<S: Stepper, G: Gate, P: Pace>(
    worker: &mut Worker<S, G>,
    k: usize,
    steps: u32,
    pace: &P,
) -> Progress
    requires { CanResume S.Stepper.own G.Gate.own worker.old }
    ensures { IsResumed S.Stepper.own G.Gate.own worker.old worker.new }
{
    // the gate stays where it is: it is large, and moving it out and back would cost each round
    match &mut worker.gate {
        Some(gate) => step_one(worker.members.as_mut_slice(), gate, k, steps, pace),
        None => Progress::none(),
    }
}

/// The same of a member, where its worker is there.
fn visit_one<S: Stepper, G: Gate, P: Pace>(
    workers: &mut [Worker<S, G>],
    member: Visit,
    steps: u32,
    pace: &P,
) -> Progress
    requires { (i : ℕ) (w : Worker S G) → slice_get workers.old i ≡ Some w → CanResume S.Stepper.own G.Gate.own w }
    ensures { Each (IsResumed S.Stepper.own G.Gate.own) workers.old workers.new }
{
    let i = member.worker();
    if i >= workers.len() {
        return Progress::none();
    }
    visit(&mut workers[i], member.member(), steps, pace)
}

/// One round: each member goes towards the turn to which they go.
fn visit_all<S: Stepper, G: Gate>(workers: &mut [Worker<S, G>], course: &mut Course) -> Progress
    requires { (i : ℕ) (w : Worker S G) → slice_get workers.old i ≡ Some w → CanResume S.Stepper.own G.Gate.own w }
    ensures { Each (IsResumed S.Stepper.own G.Gate.own) workers.old workers.new }
{
    let mut round = Progress::none();
    let goal = UpTo(course.goal());
    'members: for v in 0..course.member_count() {
        let member = course.member_at(v);
        let steps = visit_one(workers, member, STEPS_A_ROUND, &goal);
        course.add(member, steps.moved);
        round = round.and(steps);
    }
    round
}

/// The visits that are due.
fn revisit_all<S: Stepper, G: Gate>(workers: &mut [Worker<S, G>], course: &Course)
    requires { (i : ℕ) (w : Worker S G) → slice_get workers.old i ≡ Some w → CanResume S.Stepper.own G.Gate.own w }
    ensures { Each (IsResumed S.Stepper.own G.Gate.own) workers.old workers.new }
{
    'visits: for v in 0..course.due() {
        let due = course.visit(v);
        visit_one(workers, due, due.steps(), &ByVisits);
    }
}

/// The members of a worker that have this port join the round.
fn join_of_worker<S: Stepper>(members: &[S], i: usize, port: u32, course: &mut Course) {
    for k in 0..members.len() {
        if members[k].port() == port {
            course.join(i, k);
        }
    }
}

/// The members that have this port join the round.
fn join_of_port<S: Stepper, G>(workers: &[Worker<S, G>], port: u32, course: &mut Course) {
    for i in 0..workers.len() {
        join_of_worker(workers[i].members.as_slice(), i, port, course);
    }
}

/// All members join the round, from the last port to the first, whatever worker has them.
fn join_all<S: Stepper, G>(workers: &[Worker<S, G>], course: &mut Course) {
    for port in 0..MAX_PORTS {
        join_of_port(workers, MAX_PORTS - 1 - port, course);
    }
}

/// Rounds of all workers, turn by turn, until all members are done or have made so many steps together. A
/// round without a step counts as one. Where the visits of a turn are known, a round comes after them. Where there are
/// more members than it can go round it makes no step.
pub fn run_solo<S: Stepper, G: Gate>(workers: &mut [Worker<S, G>], steps: u64)
    requires { (i : ℕ) (w : Worker S G) → slice_get workers.old i ≡ Some w → CanResume S.Stepper.own G.Gate.own w }
    ensures { Each (IsResumed S.Stepper.own G.Gate.own) workers.old workers.new }
{
    let mut course = Course::new();
    join_all(workers, &mut course);
    if course.is_short() {
        return;
    }
    'rounds: for _ in 0..steps {
        let round = visit_all(workers, &mut course);
        course.after(round);
        if course.is_over(steps) {
            return;
        }
        revisit_all(workers, &course);
    }
}
