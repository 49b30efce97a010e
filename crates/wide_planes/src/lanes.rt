//! Single lanes, and the same value in all of them.

ghost use Rattle.std.specs.Prelude.{◌≡◌, ◌≢◌, ◌<◌, ℕ};
ghost use Rattle.wide_planes.specs.{declared.TheConstants.WIDE_LANES, Lanes.lane_of};

use crate::planes::{Wide, Words};
use logic_four::{V4, code, decoded};

/// The value of a lane.
#[inline]
pub fn lane(p: Wide, k: u32) -> V4
    requires { k < WIDE_LANES }
    ensures { result ≡ lane_of p k }
{
    decoded(u64::from(p.low.bit(k)) + 2 * u64::from(p.high.bit(k)))
}

/// The planes with another value in a lane.
#[inline]
pub fn with_lane(p: Wide, k: u32, v: V4) -> Wide
    requires { k < WIDE_LANES }
    ensures here { lane_of result k ≡ v }
    ensures others { (j : ℕ) → j < WIDE_LANES → j ≢ k → lane_of result j ≡ lane_of p j }
{
    let code = code(v) as u32;
    Wide {
        low: p.low.with_bit(k, code % 2),
        high: p.high.with_bit(k, code / 2),
    }
}

/// The planes with this value in every lane.
#[inline]
pub fn in_all_lanes(v: V4) -> Wide
    ensures { (k : ℕ) → k < WIDE_LANES → lane_of result k ≡ v }
{
    let code = code(v) as u32;
    Wide {
        low: Words::all(code % 2),
        high: Words::all(code / 2),
    }
}
