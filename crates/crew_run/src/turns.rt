//! The members of one worker, by their places.

ghost use Rattle.crew_run.specs.code.Phases.{AreStepped, CanStep};

use crate::gate::Gate;
use crate::pace::Pace;
use crate::phase::{Progress, step_member};
use crate::stepper::Stepper;

/// Steps the member in this place, if it is there, as `step_member` does.
pub fn step_one<S: Stepper, G: Gate, P: Pace>(
    members: &mut [S],
    gate: &mut G,
    k: usize,
    steps: u32,
    pace: &P,
) -> Progress
    requires { CanStep S.Stepper.own G.Gate.own members.old gate.old }
    ensures { AreStepped S.Stepper.own G.Gate.own members.old gate.old members.new gate.new }
{
    if k >= members.len() {
        return Progress::none();
    }
    step_member(&mut members[k], gate, steps, pace)
}
