//! The faults of a list, or all of a netlist, in groups that are dealt to threads.

ghost use Rattle.std.specs.Prelude.{◌≡◌, ◌+◌, ◌<◌, ◌≤◌, ◌^◌, length, All, IfOk};
ghost use Rattle.limits.specs.declared.TheConstants.{MAX_WORKERS};
ghost use Rattle.net_defs.specs.{Valid.IsValid, Valid.IsValidTiming, Valid.IsValidStimulus, Loops.AreRanks};
ghost use Rattle.fault_sim.specs.code.Groups.{group_faults, IsGroup, AreGroups, IsDone, IsRun, AreRun};
ghost use Rattle.fault_sim.specs.{Faults.IsFault, Faults.all_faults, Verdicts.AreAllVerdicts, Verdicts.AreVerdicts, Verdicts.IsNamed};
ghost use Rattle.fault_sim.specs.code.Lanes.{pair_value, wide_form};
ghost use Rattle.net_ops.specs.Schedules.{IsSchedule};

use crate::group::scheduled_group;
use crate::wires::Lanes;
use crate::{Fault, Verdict};
use logic_four::{Kind, V4};
use net_defs::{Block, Netlist, Ranks, Stimulus, Timing};
use net_ops::{Schedule, make_schedule};
use seen_list::{List, Memory};
use std::alloc::Global;
use std::thread::{self, Threads};
use wide_planes::WIDE_LANES;

/// The faults of a group. Each takes a lane beside that of the good design.
const FAULTS: usize = WIDE_LANES as usize - 1;

/// The faults of a group however large the memories are, if there are as many.
const LEAST_FAULTS: usize = 29;

/// The bits of all memories in all lanes of a group of more faults.
const GROUP_BITS: usize = 1 << 28;

/// Faults that run side by side, and the verdicts on them once they are made, if there was memory.
#[derive(Drop)]
pub(crate) struct Group {
    pub(crate) faults: List<Fault>,
    pub(crate) verdicts: Result<List<Verdict>, Memory>,
}

/// The verdicts on all stuck faults of a netlist: two for each signal in signal order, that on stuck at 0
/// first. They are the same for every number of workers.
pub fn fault_all<R: Threads + Sync>(
    rt: &R,
    alloc: Global,
    net: &Netlist,
    ranks: &Ranks,
    timing: &Timing,
    stim: &Stimulus,
    workers: u32,
) -> Result<List<Verdict>, Memory>
    requires valid { IsValid net.now }
    requires timing { IsValidTiming timing.now }
    requires ranks { AreRanks net.now timing.now ranks.now }
    requires stimulus { IsValidStimulus stim.now }
    requires workers { (1 ≤ workers) × (workers ≤ MAX_WORKERS) }
    ensures verdicts { IfOk result (AreAllVerdicts net.now timing.now stim.now) }
    ensures named { IfOk result (All (IsNamed net.now stim.now)) }
{
    let faults = all_faults(alloc, net)?;
    fault_list(
        rt,
        alloc,
        net,
        ranks,
        timing,
        stim,
        faults.as_slice(),
        workers,
    )
}

/// The verdicts on these faults, each in its own place. They are the same for every number of workers.
pub fn fault_list<R: Threads + Sync>(
    rt: &R,
    alloc: Global,
    net: &Netlist,
    ranks: &Ranks,
    timing: &Timing,
    stim: &Stimulus,
    faults: &[Fault],
    workers: u32,
) -> Result<List<Verdict>, Memory>
    requires valid { IsValid net.now }
    requires timing { IsValidTiming timing.now }
    requires ranks { AreRanks net.now timing.now ranks.now }
    requires stimulus { IsValidStimulus stim.now }
    requires faults { All (IsFault net.now) faults.now }
    requires workers { (1 ≤ workers) × (workers ≤ MAX_WORKERS) }
    ensures verdicts { IfOk result (AreVerdicts net.now timing.now stim.now faults.now) }
    ensures named { IfOk result (All (IsNamed net.now stim.now)) }
{
    let schedule = make_schedule::<Lanes>(alloc, net, timing, ranks.order.as_slice())?;
    let mut groups = make_groups(alloc, net, faults)?;
    run_groups(
        rt,
        alloc,
        groups.as_mut_slice(),
        net,
        &schedule,
        timing,
        stim,
        workers,
    );
    gather(alloc, groups.as_slice(), net, timing, stim)
}

/// Runs all groups, each in one of the threads.
fn run_groups<R: Threads + Sync>(
    rt: &R,
    alloc: Global,
    groups: &mut [Group],
    net: &Netlist,
    schedule: &Schedule<Kind>,
    timing: &Timing,
    stim: &Stimulus,
    workers: u32,
)
    requires valid { IsValid net.now }
    requires timing { IsValidTiming timing.now }
    requires schedule { IsSchedule pair_value wide_form net.now timing.now schedule.now }
    requires stimulus { IsValidStimulus stim.now }
    requires workers { 1 ≤ workers }
    requires groups { All (IsGroup net.now) groups.old }
    ensures { AreRun net.now timing.now stim.now groups.old groups.new }
{
    thread::for_each_mut(
        rt,
        groups,
        workers as usize,
        &|_, group| { run_group(alloc, net, schedule, timing, stim, group) },
    );
}

/// Makes the verdicts of a group.
fn run_group(
    alloc: Global,
    net: &Netlist,
    schedule: &Schedule<Kind>,
    timing: &Timing,
    stim: &Stimulus,
    group: &mut Group,
)
    requires valid { IsValid net.now }
    requires timing { IsValidTiming timing.now }
    requires schedule { IsSchedule pair_value wide_form net.now timing.now schedule.now }
    requires stimulus { IsValidStimulus stim.now }
    requires group { IsGroup net.now group.old }
    ensures { IsRun net.now timing.now stim.now group.old group.new }
{
    group.verdicts = scheduled_group(alloc, net, timing, stim, schedule, group.faults.as_slice());
}

/// The groups of these faults, without verdicts.
fn make_groups(alloc: Global, net: &Netlist, faults: &[Fault]) -> Result<List<Group>, Memory>
    requires { All (IsFault net.now) faults.now }
    ensures { IfOk result (AreGroups net.now faults.now) }
{
    let most = most_faults(net);
    let mut groups = List::new(alloc);
    let mut begun = 0;
    'groups: while begun < faults.len() {
        let end = begun + most.min(faults.len() - begun);
        groups.push(make_group(alloc, &faults[begun..end])?)?;
        begun = end;
    }
    Ok(groups)
}

/// The most faults of a group: fewer than there are lanes, where so many copies of the memories would be large.
fn most_faults(net: &Netlist) -> usize
    ensures some { 1 ≤ result }
    ensures few { result < WIDE_LANES }
{
    let mut bits = 1usize;
    for block in net.blocks.as_slice() {
        bits = bits.saturating_add(block_bits(block));
    }
    let most = GROUP_BITS.checked_div(bits).unwrap_or(FAULTS);
    most.clamp(LEAST_FAULTS, FAULTS)
}

/// The bits of a memory, a word for each address, if a `usize` can count them.
fn block_bits(block: &Block) -> usize {
    let mut bits = block.outs.len();
    for _bit in 0..block.address.len() {
        bits = bits.saturating_mul(2);
    }
    bits
}

/// The group of these faults.
fn make_group(alloc: Global, faults: &[Fault]) -> Result<Group, Memory>
    ensures faults { IfOk result (λ group. group.faults ≡ faults.now) }
{
    let mut some = List::new(alloc);
    some.extend_from_slice(faults)?;
    Ok(Group {
        faults: some,
        verdicts: Err(Memory),
    })
}

/// All stuck faults of a netlist: two for each signal in signal order, that at 0 first.
pub fn all_faults(alloc: Global, net: &Netlist) -> Result<List<Fault>, Memory>
    requires valid { IsValid net.now }
    ensures are { IfOk result (λ faults. faults ≡ all_faults net.now) }
    ensures faults { IfOk result (All (IsFault net.now)) }
{
    let mut faults = List::new(alloc);
    'signals: for k in 0..net.signals.len() {
        let signal = k as u32;
        faults.push(Fault {
            signal,
            value: V4::Zero,
        })?;
        faults.push(Fault {
            signal,
            value: V4::One,
        })?;
    }
    Ok(faults)
}

/// The verdicts of all groups, one group after the other.
fn gather(
    alloc: Global,
    groups: &[Group],
    net: &Netlist,
    timing: &Timing,
    stim: &Stimulus,
) -> Result<List<Verdict>, Memory>
    requires { All (IsDone net.now timing.now stim.now) groups.now }
    ensures verdicts { IfOk result (AreVerdicts net.now timing.now stim.now (group_faults groups.now)) }
    ensures named { IfOk result (All (IsNamed net.now stim.now)) }
{
    let mut verdicts = List::new(alloc);
    'groups: for group in groups {
        let Ok(made) = &group.verdicts else {
            return Err(Memory);
        };
        verdicts.extend_from_slice(made.as_slice())?;
    }
    Ok(verdicts)
}
