//! The turns of a cycle.

ghost use Rattle.std.specs.Prelude.{◌≡◌, ◌*◌, ◌<◌, ◌==◌, ℕ, [], length, slice_index_or};
ghost use Rattle.net_defs.specs.{declared.stimulus.Stimulus.Stimulus, Time.cycle_rows, Valid.IsValid};
ghost use Rattle.net_ops.specs.{Schedules.IsSchedule, States.lane_state, States.IsReady, States.Passes};

use crate::ram::RamPort;
use crate::schedule::Schedule;
use crate::state::LaneState;
use crate::step::{phase_at, turn};
use crate::wire::Wire;
use logic_four::V4;
use net_defs::{Netlist, Timing};
use seen_list::List;

/// Takes each lane that runs through the turns of one cycle with these inputs. It takes no memory.
pub fn run_cycle<W: Wire>(
    state: &mut LaneState<W>,
    ports: &mut List<RamPort>,
    net: &Netlist,
    timing: &Timing,
    schedule: &Schedule<W::Form>,
    forces: &W::Forces,
    inputs: &[V4],
    is_first: bool,
)
    requires valid { IsValid net.now }
    requires schedule { IsSchedule W.answer W.is_form net.now timing.now schedule.now }
    requires ready { IsReady W.lanes net.now state.old ports.old }
    requires forces { (s : ℕ) → s < length net.now.signals → W.tells forces.now s }
    ensures ready { IsReady W.lanes net.now state.new ports.new }
    ensures lanes { length state.new.memories ≡ length state.old.memories }
    ensures passes { (l : ℕ) → l < length state.old.memories → (stimulus : Stimulus) (cycle : ℕ) → is_first ≡ (cycle == 0)
        → slice_index_or (cycle_rows stimulus) cycle [] ≡ inputs.now
        → Passes net.now timing.now stimulus (W.held forces.now l) (cycle * timing.now.units) timing.now.units
        (lane_state W.lane net.now l state.old) (lane_state W.lane net.now l state.new) }
{
    'places: for place in 0..timing.units {
        turn(
            state,
            ports,
            net,
            timing,
            schedule,
            forces,
            phase_at(is_first, place),
            inputs,
        );
    }
}
