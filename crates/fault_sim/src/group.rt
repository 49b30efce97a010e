//! A group of faults beside the good design.

ghost use Rattle.std.specs.Prelude.{◌<◌, length, All, IfOk};
ghost use Rattle.wide_planes.specs.declared.TheConstants.{WIDE_LANES};
ghost use Rattle.net_defs.specs.{Valid.IsValid, Valid.IsValidTiming, Valid.IsValidStimulus, Loops.AreRanks};
ghost use Rattle.fault_sim.specs.{Faults.IsFault, Verdicts.AreVerdicts, code.Lanes.pair_value, code.Lanes.wide_form};
ghost use Rattle.net_ops.specs.Schedules.{IsSchedule};

use crate::force::make_forces;
use crate::look::Judging;
use crate::wires::Lanes;
use crate::{Fault, Verdict};
use logic_four::Kind;
use net_defs::{Netlist, Ranks, Stimulus, Timing};
use net_ops::{Schedule, make_schedule};
use ref_sim::observe_lanes;
use seen_list::{List, Memory};
use std::alloc::Global;

/// The verdicts on fewer faults than there are lanes, each in its own place. They run side by side with the good design,
/// until each is seen or the stimulus ends.
pub fn fault_group(
    alloc: Global,
    net: &Netlist,
    ranks: &Ranks,
    timing: &Timing,
    stim: &Stimulus,
    faults: &[Fault],
) -> Result<List<Verdict>, Memory>
    requires valid { IsValid net.now }
    requires timing { IsValidTiming timing.now }
    requires ranks { AreRanks net.now timing.now ranks.now }
    requires stimulus { IsValidStimulus stim.now }
    requires few { length faults.now < WIDE_LANES }
    requires faults { All (IsFault net.now) faults.now }
    ensures { IfOk result (AreVerdicts net.now timing.now stim.now faults.now) }
{
    let schedule = make_schedule::<Lanes>(alloc, net, timing, ranks.order.as_slice())?;
    scheduled_group(alloc, net, timing, stim, &schedule, faults)
}

/// The same, with the schedule of the netlist made before.
pub(crate) fn scheduled_group(
    alloc: Global,
    net: &Netlist,
    timing: &Timing,
    stim: &Stimulus,
    schedule: &Schedule<Kind>,
    faults: &[Fault],
) -> Result<List<Verdict>, Memory>
    requires valid { IsValid net.now }
    requires timing { IsValidTiming timing.now }
    requires schedule { IsSchedule pair_value wide_form net.now timing.now schedule.now }
    requires stimulus { IsValidStimulus stim.now }
    requires few { length faults.now < WIDE_LANES }
    requires faults { All (IsFault net.now) faults.now }
    ensures { IfOk result (AreVerdicts net.now timing.now stim.now faults.now) }
{
    let forces = make_forces(alloc, net, faults)?;
    let mut judging = Judging::new(alloc, faults.len())?;
    observe_lanes::<Lanes, Judging>(
        alloc,
        &mut judging,
        net,
        timing,
        stim,
        schedule,
        &forces,
        faults.len() + 1,
    )?;
    Ok(judging.verdicts)
}
