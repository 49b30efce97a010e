//! Gates of one operand and of two, by a few operations on whole vectors.

ghost use Rattle.std.specs.Prelude.{◌≡◌, ◌∷◌, [], ◌<◌, ℕ};
ghost use Rattle.logic_four.specs.Gates.{and_value, or_value, xor_value, bus_value, tri_value};
ghost use Rattle.logic_four.specs.Values.{settled, inverse};
ghost use Rattle.lane_planes.specs.Lanes.{forced_value};
ghost use Rattle.wide_planes.specs.{declared.TheConstants.WIDE_LANES, Lanes.bit_of, Lanes.lane_of, Lanes.opposite};

use crate::planes::{Wide, Words};

/// The planes with each lane settled.
#[inline]
pub fn settle_planes(p: Wide) -> Wide
    ensures { (k : ℕ) → k < WIDE_LANES → lane_of result k ≡ settled (lane_of p k) }
{
    Wide {
        low: p.low.without(p.high),
        high: p.high,
    }
}

/// The planes with each lane inverted.
#[inline]
pub(crate) fn inverted(p: Wide) -> Wide
    ensures { (k : ℕ) → k < WIDE_LANES → lane_of result k ≡ inverse (lane_of p k) }
{
    Wide {
        low: p.low.or(p.high).inverse(),
        high: p.high,
    }
}

/// The planes with the value of another in each lane where that is 0 or 1.
#[inline]
pub fn forced(p: Wide, force: Wide) -> Wide
    ensures { (k : ℕ) → k < WIDE_LANES → lane_of result k ≡ forced_value (lane_of p k) (lane_of force k) }
{
    let kept = p.low.and(force.high);
    let given = force.low.without(force.high);
    Wide {
        low: kept.or(given),
        high: p.high.and(force.high),
    }
}

/// AND of two operands in each lane.
#[inline]
pub(crate) fn and_two(p: Wide, q: Wide) -> Wide
    ensures { (k : ℕ) → k < WIDE_LANES → lane_of result k ≡ and_value (lane_of p k ∷ lane_of q k ∷ []) }
{
    let both = p.low.and(q.low);
    let unknown = p.high.or(q.high);
    let one = both.without(unknown);
    let first = p.low.or(p.high);
    let second = q.low.or(q.high);
    let some = first.and(second);
    Wide {
        low: one,
        high: some.without(one),
    }
}

/// OR of two operands in each lane.
#[inline]
pub(crate) fn or_two(p: Wide, q: Wide) -> Wide
    ensures { (k : ℕ) → k < WIDE_LANES → lane_of result k ≡ or_value (lane_of p k ∷ lane_of q k ∷ []) }
{
    let first = p.low.without(p.high);
    let second = q.low.without(q.high);
    let one = first.or(second);
    let unknown = p.high.or(q.high);
    Wide {
        low: one,
        high: unknown.without(one),
    }
}

/// XOR of two operands in each lane.
#[inline]
pub(crate) fn xor_two(p: Wide, q: Wide) -> Wide
    ensures { (k : ℕ) → k < WIDE_LANES → lane_of result k ≡ xor_value (lane_of p k ∷ lane_of q k ∷ []) }
{
    let differ = p.low.xor(q.low);
    let unknown = p.high.or(q.high);
    Wide {
        low: differ.without(unknown),
        high: unknown,
    }
}

/// BUS of two operands in each lane.
#[inline]
pub(crate) fn bus_two(p: Wide, q: Wide) -> Wide
    ensures { (k : ℕ) → k < WIDE_LANES → lane_of result k ≡ bus_value (lane_of p k ∷ lane_of q k ∷ []) }
{
    let both = p.low.and(q.low);
    let first = p.low.xor(p.high);
    let second = q.low.xor(q.high);
    let driven = first.or(second);
    Wide {
        low: both,
        high: both.xor(driven),
    }
}

/// TRI of an enable and what it drives, in each lane.
#[inline]
pub(crate) fn tri_two(enable: Wide, driven: Wide) -> Wide
    ensures { (k : ℕ) → k < WIDE_LANES → lane_of result k ≡ tri_value (lane_of enable k) (lane_of driven k) }
{
    let on = enable.low.without(enable.high);
    let lets = on.without(driven.high);
    let off = enable.low.or(enable.high).inverse();
    let one = lets.and(driven.low);
    Wide {
        low: off.or(one),
        high: lets.inverse(),
    }
}

/// The lanes in which one has 0 and the other 1.
#[inline]
pub fn opposite(p: Wide, q: Wide) -> Words
    ensures { (k : ℕ) → k < WIDE_LANES → bit_of result k ≡ opposite (lane_of p k) (lane_of q k) }
{
    let differ = p.low.xor(q.low);
    let unknown = p.high.or(q.high);
    differ.without(unknown)
}
