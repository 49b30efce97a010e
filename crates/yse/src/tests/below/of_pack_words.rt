//! The words of packed sends.

use lane_planes::{in_all_lanes, with_lane};
use logic_four::V4;
use slot_words::pack_words::packed_word;

/// The word of turn 17 with lane 0 at 1, lane 1 undefined and the others at 0.
#[test]
fn words_have_their_turn_and_planes(rt: HostRuntime) {
    let planes = with_lane(with_lane(in_all_lanes(V4::Zero), 0, V4::One), 1, V4::Undef);
    assert!(rt; packed_word(17, planes) == 34_359_738_385);
}
