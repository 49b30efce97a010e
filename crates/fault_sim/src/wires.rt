//! What stands in a place of a row: the good design in lane 0, and a fault in each further lane.

ghost use Rattle.std.specs.Prelude.{◌<◌, length};
ghost use Rattle.wide_planes.specs.declared.TheConstants.{WIDE_LANES};
ghost use Rattle.fault_sim.specs.code.Lanes.{lane_of, pair_value, stuck_in, wide_form};

use crate::force::Forces;
use logic_four::{Kind, V4, lone_kind};
use net_ops::Wire;
use wide_planes::{Wide, forced, gate_two, in_all_lanes, lane, settle_planes, with_lane};

/// The values of a place in all lanes.
#[derive(Clone, Copy)]
pub struct Lanes {
    pub(crate) planes: Wide,
}

impl Wire for Lanes {
    type Form = Kind;

    type Forces = Forces;

    ghost lanes = { WIDE_LANES };

    ghost lane = { lane_of };

    ghost answer = { pair_value };

    ghost is_form = { wide_form };

    ghost tells = { λ forces s. (s < length forces.planes) × (s < length forces.stuck) };

    ghost held = { stuck_in };

    #[inline]
    fn of(v: V4) -> Lanes {
        Lanes {
            planes: in_all_lanes(v),
        }
    }

    #[inline]
    fn settled(self) -> Lanes {
        Lanes {
            planes: settle_planes(self.planes),
        }
    }

    #[inline]
    fn form(kind: Kind) -> Kind {
        kind
    }

    #[inline]
    fn lone(kind: Kind) -> Kind {
        lone_kind(kind)
    }

    #[inline]
    fn pair(kind: Kind, a: Lanes, b: Lanes) -> Lanes {
        Lanes {
            planes: gate_two(kind, a.planes, b.planes),
        }
    }

    #[inline]
    fn forced(self, forces: &Forces, signal: u32) -> Lanes {
        if forces.stuck.as_slice()[signal as usize] {
            Lanes {
                planes: forced(self.planes, forces.planes.as_slice()[signal as usize]),
            }
        } else {
            self
        }
    }

    #[inline]
    fn at(self, l: usize) -> V4 {
        lane(self.planes, l as u32)
    }

    #[inline]
    fn with(self, l: usize, v: V4) -> Lanes {
        Lanes {
            planes: with_lane(self.planes, l as u32, v),
        }
    }
}
