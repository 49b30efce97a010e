//! What each signal is stuck at, lane by lane.

ghost use Rattle.std.specs.Prelude.{◌<◌, ◌≤◌, length, All, IfOk};
ghost use Rattle.wide_planes.specs.declared.TheConstants.{WIDE_LANES};
ghost use Rattle.fault_sim.specs.{Faults.IsFault, code.Lanes.AreForces};

use crate::Fault;
use logic_four::V4;
use net_defs::Netlist;
use seen_list::{List, Memory};
use std::alloc::Global;
use wide_planes::{Wide, in_all_lanes, with_lane};

/// For each signal the value at which it is stuck in each lane, undefined where it is free, and whether it is stuck
/// in any.
#[derive(Drop)]
pub struct Forces {
    pub(crate) planes: List<Wide>,
    pub(crate) stuck: List<bool>,
}

/// What these faults are stuck at, each in a lane of its own.
pub(crate) fn make_forces(alloc: Global, net: &Netlist, faults: &[Fault]) -> Result<Forces, Memory>
    requires few { length faults.now < WIDE_LANES }
    requires faults { All (IsFault net.now) faults.now }
    ensures { IfOk result (AreForces net.now faults.now) }
{
    let count = net.signals.len();
    let mut planes = List::filled(alloc, in_all_lanes(V4::Undef), count)?;
    let mut stuck = List::filled(alloc, false, count)?;
    'faults: for k in 0..faults.len() {
        let fault = faults[k];
        let p = planes.as_slice()[fault.signal as usize];
        planes.set(
            fault.signal as usize,
            with_lane(p, k as u32 + 1, fault.value),
        );
        stuck.set(fault.signal as usize, true);
    }
    Ok(Forces { planes, stuck })
}
