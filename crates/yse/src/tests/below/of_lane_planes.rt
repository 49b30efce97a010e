//! Planes of thirty lanes.

use func_table::table_of;
use lane_planes::{Planes, eval_planes, in_all_lanes, lane, settle_planes, with_lane};
use logic_four::V4::{self, HighZ, One, Undef, Zero};
use logic_four::{Kind, allows};

/// Lanes 0 to 3 at 0, 1, x and z, and the others at z.
fn four_values() -> Planes {
    let mut planes = in_all_lanes(HighZ);
    planes = with_lane(planes, 0, Zero);
    planes = with_lane(planes, 1, One);
    with_lane(planes, 2, Undef)
}

/// Gates of two operands, the first in lane k the value of code k, the second the same in all lanes, and what they
/// answer in lanes 0 to 3.
const GATES: &[(Kind, V4, &[V4])] = &[
    (Kind::And, HighZ, &[Zero, Undef, Undef, Undef]),
    (Kind::Nor, Zero, &[One, Zero, Undef, Undef]),
    (Kind::Xnor, One, &[Zero, One, Undef, Undef]),
    (Kind::Tri, One, &[HighZ, One, Undef, Undef]),
    (Kind::Bus, HighZ, &[Zero, One, Undef, HighZ]),
];

fn gates() -> &'static [(Kind, V4, &'static [V4])] {
    GATES
}

/// What a gate of two operands answers, if its kind has two.
fn answer(kind: Kind, second: V4) -> Planes {
    let none = in_all_lanes(Undef);
    if !allows(kind, 2) {
        return none;
    }
    let table = table_of(kind, 2);
    eval_planes(&table, four_values(), in_all_lanes(second), none, none)
}

/// Whether lanes 0 to 3 have these values, and lane 29 that of lane 3.
fn has_lanes(planes: Planes, values: &[V4]) -> bool {
    let first = [
        lane(planes, 0),
        lane(planes, 1),
        lane(planes, 2),
        lane(planes, 3),
    ];
    first.as_slice() == values && lane(planes, 29) == first[3]
}

#[test]
fn gates_answer_in_each_lane(rt: HostRuntime) {
    for (kind, second, want) in gates() {
        assert!(rt; has_lanes(answer(*kind, *second), want));
    }
    assert!(rt; lane(settle_planes(four_values()), 29) == Undef);
}
