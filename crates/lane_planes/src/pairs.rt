//! Gates of one operand and of two, by a few operations on whole words.

ghost use Rattle.std.specs.Prelude.{◌≡◌, ◌∷◌, [], ◌<◌, ℕ};
ghost use Rattle.limits.specs.declared.TheConstants.{LANES};
ghost use Rattle.logic_four.specs.Gates.{and_value, or_value, xor_value, bus_value, tri_value};
ghost use Rattle.logic_four.specs.Values.{settled, inverse};
ghost use Rattle.lane_planes.specs.Lanes.{lane_of, forced_value};

use crate::{ALL, Planes};

/// The planes with each lane settled.
#[inline]
pub fn settle_planes(p: Planes) -> Planes
    ensures { (k : ℕ) → k < LANES → lane_of result k ≡ settled (lane_of p k) }
{
    Planes {
        low: p.low & !p.high,
        high: p.high,
    }
}

/// The planes with the value of another in each lane where that is 0 or 1.
#[inline]
pub fn forced(p: Planes, force: Planes) -> Planes
    ensures { (k : ℕ) → k < LANES → lane_of result k ≡ forced_value (lane_of p k) (lane_of force k) }
{
    Planes {
        low: (p.low & force.high) | (force.low & !force.high),
        high: p.high & force.high,
    }
}

/// The planes with each lane inverted.
#[inline]
pub(crate) fn inverted(p: Planes) -> Planes
    ensures { (k : ℕ) → k < LANES → lane_of result k ≡ inverse (lane_of p k) }
{
    Planes {
        low: ALL & !(p.low | p.high),
        high: p.high,
    }
}

/// AND of two operands in each lane.
#[inline]
pub(crate) fn and_two(p: Planes, q: Planes) -> Planes
    ensures { (k : ℕ) → k < LANES → lane_of result k ≡ and_value (lane_of p k ∷ lane_of q k ∷ []) }
{
    let one = (p.low & q.low) & !(p.high | q.high);
    Planes {
        low: one,
        high: ((p.low | p.high) & (q.low | q.high)) & !one,
    }
}

/// OR of two operands in each lane.
#[inline]
pub(crate) fn or_two(p: Planes, q: Planes) -> Planes
    ensures { (k : ℕ) → k < LANES → lane_of result k ≡ or_value (lane_of p k ∷ lane_of q k ∷ []) }
{
    let one = (p.low & !p.high) | (q.low & !q.high);
    Planes {
        low: one,
        high: ((p.low | p.high) | (q.low | q.high)) & !one,
    }
}

/// XOR of two operands in each lane.
#[inline]
pub(crate) fn xor_two(p: Planes, q: Planes) -> Planes
    ensures { (k : ℕ) → k < LANES → lane_of result k ≡ xor_value (lane_of p k ∷ lane_of q k ∷ []) }
{
    let high = p.high | q.high;
    Planes {
        low: (p.low ^ q.low) & !high,
        high,
    }
}

/// BUS of two operands in each lane.
#[inline]
pub(crate) fn bus_two(p: Planes, q: Planes) -> Planes
    ensures { (k : ℕ) → k < LANES → lane_of result k ≡ bus_value (lane_of p k ∷ lane_of q k ∷ []) }
{
    let low = p.low & q.low;
    Planes {
        low,
        high: low ^ ((p.low ^ p.high) | (q.low ^ q.high)),
    }
}

/// TRI of an enable and what it drives, in each lane.
#[inline]
pub(crate) fn tri_two(enable: Planes, driven: Planes) -> Planes
    ensures { (k : ℕ) → k < LANES → lane_of result k ≡ tri_value (lane_of enable k) (lane_of driven k) }
{
    let on = enable.low & !enable.high;
    Planes {
        low: (ALL & !(enable.low | enable.high)) | ((on & driven.low) & !driven.high),
        high: ALL & !(on & !driven.high),
    }
}
