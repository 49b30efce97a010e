//! A run over all cycles.

ghost use Rattle.std.specs.Prelude.{◌≡◌, ℕ, ◌+◌, ◌<◌, ◌≤◌, ◌==◌, ◌&&◌, true, false, [], length, IfOk, OnErr, OnOk};
ghost use Rattle.net_defs.specs.{Time.cycle_count, Valid.IsValid, Valid.IsValidTiming, Steps.first_state, Reference.HasOneSimulation, Loops.IsOrder};
ghost use Rattle.ref_sim.specs.{Observing.HasWatched, Observing.HasWatchedLanes, Runs.AreRowsOf, code.Runs.RunsTo, code.Runs.cycles_before};
ghost use Rattle.net_ops.specs.{Schedules.IsSchedule, States.lane_state, States.IsReady};

use crate::observer::Observer;
use crate::trace_rows::Printing;
use logic_four::V4;
use net_defs::{Netlist, Rows, Stimulus, Timing};
use net_ops::{
    LaneState, RamPort, Schedule, Wire, initial_state, make_ports, make_schedule, run_cycle,
};
use seen_list::{List, Memory};
use std::alloc::Global;

/// The printed values of each cycle by an order that `rank` of `rank_find` found, so that the netlist
/// isn't ranked again. An order leaves no room for a second simulation, and none for a loop.
pub fn refer_in_order(
    alloc: Global,
    net: &Netlist,
    timing: &Timing,
    stim: &Stimulus,
    order: List<u32>,
) -> Result<Rows, Memory>
    requires valid { IsValid net.now }
    requires timing { IsValidTiming timing.now }
    requires order { IsOrder net.now timing.now order }
    ensures rows { IfOk result (AreRowsOf net.now timing.now stim.now) }
    ensures simulated { HasOneSimulation net.now timing.now stim.now }
{
    let mut printing = Printing::new(alloc, net, stim)?;
    observe(alloc, &mut printing, net, timing, stim, order.as_slice())?;
    Ok(Rows {
        rows: printing.rows,
    })
}

/// Shows the values of all signals at the end of each cycle to an observer, by an order that `rank` of
/// `rank_find` found. One that wants no more may end it. It takes memory before the first cycle, and none from then on.
pub fn observe<O: Observer<V4>>(
    alloc: Global,
    observer: &mut O,
    net: &Netlist,
    timing: &Timing,
    stim: &Stimulus,
    order: &[u32],
) -> Result<(), Memory>
    requires valid { IsValid net.now }
    requires timing { IsValidTiming timing.now }
    requires order { IsOrder net.now timing.now order.now }
    requires ready { O.has_seen observer.old net.now [] (cycle_count stim.now) }
    ensures watched { OnOk result (HasWatched net.now timing.now stim.now (O.has_seen observer.new net.now) (O.goes_on observer.new)) }
    ensures size { O.size observer.new ≡ O.size observer.old }
    ensures refused { OnErr result (observer.new ≡ observer.old) }
    ensures simulated { HasOneSimulation net.now timing.now stim.now }
{
    let schedule = make_schedule::<V4>(alloc, net, timing, order)?;
    observe_lanes(alloc, observer, net, timing, stim, &schedule, &(), 1)
}

/// Shows the same of so many runs side by side, in which signals may be stuck, to an observer. One that wants no more
/// may end it. It takes memory before the first cycle, and none from then on.
pub fn observe_lanes<W: Wire, O: Observer<W>>(
    alloc: Global,
    observer: &mut O,
    net: &Netlist,
    timing: &Timing,
    stim: &Stimulus,
    schedule: &Schedule<W::Form>,
    forces: &W::Forces,
    lanes: usize,
) -> Result<(), Memory>
    requires valid { IsValid net.now }
    requires schedule { IsSchedule W.answer W.is_form net.now timing.now schedule.now }
    requires forces { (s : ℕ) → s < length net.now.signals → W.tells forces.now s }
    requires lanes { lanes ≤ W.lanes }
    requires ready { O.has_seen observer.old net.now [] (cycle_count stim.now) }
    ensures watched { OnOk result (HasWatchedLanes W.lane (W.held forces.now) lanes net.now timing.now stim.now
        (O.has_seen observer.new net.now) (O.goes_on observer.new) (cycle_count stim.now)) }
    ensures size { O.size observer.new ≡ O.size observer.old }
    ensures refused { OnErr result (observer.new ≡ observer.old) }
{
    let mut state = initial_state::<W>(alloc, net, timing, lanes)?;
    let mut ports = make_ports(alloc, net)?;
    let course = Course::<W> {
        net,
        timing,
        stim,
        schedule,
        forces,
    };
    run(observer, &mut state, &mut ports, &course);
    Ok(())
}

/// What stays the same at all cycles of a run.
#[derive(Drop)]
struct Course<'a, W: Wire> {
    net: &'a Netlist,
    timing: &'a Timing,
    stim: &'a Stimulus,
    schedule: &'a Schedule<W::Form>,
    /// Which signals are stuck.
    forces: &'a W::Forces,
}

/// Runs all cycles, or fewer where the observer stops. It takes no memory.
fn run<W: Wire, O: Observer<W>>(
    observer: &mut O,
    state: &mut LaneState<W>,
    ports: &mut List<RamPort>,
    course: &Course<W>,
)
    requires valid { IsValid course.now.net.now }
    requires schedule { IsSchedule W.answer W.is_form course.now.net.now course.now.timing.now course.now.schedule.now }
    requires forces { (s : ℕ) → s < length course.now.net.now.signals → W.tells course.now.forces.now s }
    requires ready { IsReady W.lanes course.now.net.now state.old ports.old }
    requires start { (l : ℕ) → l < length state.old.memories
        → lane_state W.lane course.now.net.now l state.old ≡ first_state course.now.net.now course.now.timing.now }
    requires observer { O.has_seen observer.old course.now.net.now [] (cycle_count course.now.stim.now) }
    ensures watched { HasWatchedLanes W.lane (W.held course.now.forces.now) (length state.old.memories)
        course.now.net.now course.now.timing.now course.now.stim.now
        (O.has_seen observer.new course.now.net.now) (O.goes_on observer.new) (cycle_count course.now.stim.now) }
    ensures size { O.size observer.new ≡ O.size observer.old }
{
    let mut is_first = true;
    'rows: for r in 0..course.stim.rows.len() {
        let goes_on = run_row(observer, state, ports, course, r, is_first);
        if !goes_on {
            return;
        }
        is_first = is_still_first(is_first, course.stim.rows.as_slice()[r].times);
    }
}

/// The cycles of one row of the stimulus, or fewer where the observer stops. It answers whether it goes on.
fn run_row<W: Wire, O: Observer<W>>(
    observer: &mut O,
    state: &mut LaneState<W>,
    ports: &mut List<RamPort>,
    course: &Course<W>,
    r: usize,
    is_first: bool,
) -> bool
    requires valid { IsValid course.now.net.now }
    requires schedule { IsSchedule W.answer W.is_form course.now.net.now course.now.timing.now course.now.schedule.now }
    requires forces { (s : ℕ) → s < length course.now.net.now.signals → W.tells course.now.forces.now s }
    requires row { r < length course.now.stim.now.rows }
    requires first { is_first ≡ (cycles_before course.now.stim.now r == 0) }
    requires ready { IsReady W.lanes course.now.net.now state.old ports.old }
    requires runs { RunsTo W.lane (W.held course.now.forces.now) course.now.net.now course.now.timing.now course.now.stim.now
        (O.has_seen observer.old course.now.net.now) true (cycles_before course.now.stim.now r) state.old }
    ensures ready { IsReady W.lanes course.now.net.now state.new ports.new }
    ensures lanes { length state.new.memories ≡ length state.old.memories }
    ensures runs { RunsTo W.lane (W.held course.now.forces.now) course.now.net.now course.now.timing.now course.now.stim.now
        (O.has_seen observer.new course.now.net.now) result (cycles_before course.now.stim.now (r + 1)) state.new }
    ensures stops { result ≡ false → O.goes_on observer.new ≡ false }
    ensures size { O.size observer.new ≡ O.size observer.old }
{
    let row = &course.stim.rows.as_slice()[r];
    'times: for time in 0..row.times {
        run_cycle(
            state,
            ports,
            course.net,
            course.timing,
            course.schedule,
            course.forces,
            row.values.as_slice(),
            is_still_first(is_first, time),
        );
        let goes_on = observer.look(course.net, state.row(course.net));
        if !goes_on {
            return false;
        }
    }
    true
}

/// Whether no cycle was run, if so many more were run since.
fn is_still_first(is_first: bool, more: u32) -> bool
    ensures { result ≡ (is_first && (more == 0)) }
{
    is_first && more == 0
}
