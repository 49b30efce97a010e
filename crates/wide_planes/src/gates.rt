//! Gates of two operands in all lanes at once.

ghost use Rattle.std.specs.Prelude.{◌≡◌, ◌∷◌, [], ◌<◌, ℕ};
ghost use Rattle.logic_four.specs.Gates.{gate_value};
ghost use Rattle.wide_planes.specs.{declared.TheConstants.WIDE_LANES, Lanes.lane_of};

use crate::pairs::{and_two, bus_two, inverted, or_two, settle_planes, tri_two, xor_two};
use crate::planes::Wide;
use logic_four::Kind;

/// What a gate of this kind answers in each lane for two operands. `Not` and `Buf` look at the first alone. The choice
/// by the kind is one for all lanes.
#[inline]
pub fn gate_two(kind: Kind, p: Wide, q: Wide) -> Wide
    ensures { (k : ℕ) → k < WIDE_LANES → lane_of result k ≡ gate_value kind (lane_of p k ∷ lane_of q k ∷ []) }
{
    match kind {
        Kind::And => and_two(p, q),
        Kind::Nand => inverted(and_two(p, q)),
        Kind::Or => or_two(p, q),
        Kind::Nor => inverted(or_two(p, q)),
        Kind::Xor => xor_two(p, q),
        Kind::Xnor => inverted(xor_two(p, q)),
        Kind::Not => inverted(p),
        Kind::Buf => settle_planes(p),
        Kind::Tri => tri_two(p, q),
        Kind::Bus => bus_two(p, q),
    }
}
