//! One turn, in place, in all lanes at once.

ghost use Rattle.std.specs.Prelude.{◌≡◌, ◌<◌, ◌≤◌, ℕ, [], length, slice_index_or};
ghost use Rattle.net_defs.specs.{Valid.IsValid, Loops.is_gate};
ghost use Rattle.net_ops.specs.code.States.{last_state, phase_at, Assigns, HasHeld, HasSources, StepsBy, WordsBy};
ghost use Rattle.net_ops.specs.{Lanes.forced, Lanes.lane_row, Places.place_count, Places.row_of, Rams.ArePorts};
ghost use Rattle.net_ops.specs.{Schedules.here_value, Schedules.AreSources, Schedules.IsSchedule, States.lane_state, States.IsReady};

use crate::bases::set_bases;
use crate::ops::do_ops;
use crate::ram::{RamPort, edge_memories};
use crate::schedule::{Schedule, Source};
use crate::state::LaneState;
use crate::values::keep;
use crate::wire::Wire;
use logic_four::V4;
use net_defs::{Netlist, Timing};
use seen_list::List;

/// Where a turn stands in its cycle.
#[derive(Clone, Copy)]
pub(crate) enum Phase {
    /// Turn 1.
    Start,
    /// The first turn of a later cycle.
    Edge,
    /// Any other turn.
    Within,
}

/// The phase of a turn by its place in its cycle, counted from 0, and whether its cycle is the first.
pub(crate) fn phase_at(is_first: bool, place: u32) -> Phase
    ensures { result ≡ phase_at is_first place }
{
    if place != 0 {
        Phase::Within
    } else if is_first {
        Phase::Start
    } else {
        Phase::Edge
    }
}

/// Takes the state through a turn in each lane that runs. A signal that is stuck keeps its value. In a turn within
/// a cycle the inputs stay as they are.
pub(crate) fn turn<W: Wire>(
    state: &mut LaneState<W>,
    ports: &mut List<RamPort>,
    net: &Netlist,
    timing: &Timing,
    schedule: &Schedule<W::Form>,
    forces: &W::Forces,
    phase: Phase,
    inputs: &[V4],
)
    requires valid { IsValid net.now }
    requires schedule { IsSchedule W.answer W.is_form net.now timing.now schedule.now }
    requires ready { IsReady W.lanes net.now state.old ports.old }
    requires forces { (s : ℕ) → s < length net.now.signals → W.tells forces.now s }
    requires held { phase ≡ Phase.Within → (l : ℕ) → l < length state.old.memories
        → HasHeld net.now (W.held forces.now l) inputs.now (lane_state W.lane net.now l state.old).row }
    ensures steps { (l : ℕ) → l < length state.old.memories
        → StepsBy net.now timing.now (W.held forces.now l) phase inputs.now (lane_state W.lane net.now l state.old) (lane_state W.lane net.now l state.new) }
    ensures ready { IsReady W.lanes net.now state.new ports.new }
    ensures lanes { length state.new.memories ≡ length state.old.memories }
{
    keep(&mut state.values, net.signals.len());
    set_sources(
        state,
        ports,
        net,
        timing,
        schedule.sources.as_slice(),
        forces,
        phase,
        inputs,
    );
    set_gates(&mut state.values, net, timing, schedule, forces);
}

/// Gives the sources their values, and takes the memories of each lane through an edge, if this turn is one.
fn set_sources<W: Wire>(
    state: &mut LaneState<W>,
    ports: &mut List<RamPort>,
    net: &Netlist,
    timing: &Timing,
    sources: &[Source],
    forces: &W::Forces,
    phase: Phase,
    inputs: &[V4],
)
    requires valid { IsValid net.now }
    requires sources { AreSources net.now (length net.now.signals) sources.now }
    requires ready { IsReady W.lanes net.now state.old ports.old }
    requires forces { (s : ℕ) → s < length net.now.signals → W.tells forces.now s }
    ensures long { length state.new.values ≡ length state.old.values }
    ensures sources { (l : ℕ) → l < length state.old.memories
        → HasSources net.now timing.now (W.held forces.now l) phase inputs.now (last_state W.lane net.now l state.old) (lane_row W.lane l state.old.values) (lane_row W.lane l state.new.values) }
    ensures lanes { length state.new.memories ≡ length state.old.memories }
    ensures words { (l : ℕ) → l < length state.old.memories
        → WordsBy net.now phase (last_state W.lane net.now l state.old) (slice_index_or state.new.memories l []) }
    ensures ports { ArePorts net.now ports.new }
{
    match phase {
        Phase::Start => set_bases(
            &mut state.values,
            net,
            timing,
            sources,
            forces,
            Phase::Start,
            inputs,
        ),
        Phase::Edge => {
            edge_memories(&mut state.values, &mut state.memories, ports, net);
            set_bases(
                &mut state.values,
                net,
                timing,
                sources,
                forces,
                Phase::Edge,
                inputs,
            );
        }
        Phase::Within => {}
    }
}

/// Gives each gate its value.
fn set_gates<W: Wire>(
    row: &mut List<W>,
    net: &Netlist,
    timing: &Timing,
    schedule: &Schedule<W::Form>,
    forces: &W::Forces,
)
    requires schedule { IsSchedule W.answer W.is_form net.now timing.now schedule.now }
    requires long { length row.old ≡ place_count net.now }
    requires forces { (s : ℕ) → s < length net.now.signals → W.tells forces.now s }
    ensures long { length row.new ≡ length row.old }
    ensures gates { (l : ℕ) → l < W.lanes → Assigns (is_gate net.now)
        (λ s. forced (W.held forces.now l s) (here_value net.now timing.now s (lane_row W.lane l row.new)))
        (lane_row W.lane l row.old) (lane_row W.lane l row.new) }
{
    do_ops(row.as_mut_slice(), forces, schedule.gate_ops.as_slice());
}
