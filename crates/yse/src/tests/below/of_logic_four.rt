//! Calls of `logic_four`.

use logic_four::V4::{self, HighZ, One, Undef, Zero};
use logic_four::{Kind, gate};

/// Answers worked out by hand from the rules in words, not from the definitions.
const ROWS: &[(Kind, &[V4], V4)] = &[
    (Kind::And, &[], One),
    (Kind::And, &[Undef, Zero], Zero),
    (Kind::And, &[One, HighZ, One], Undef),
    (Kind::Nand, &[Zero, Zero], One),
    (Kind::Nand, &[One, One], Zero),
    (Kind::Nand, &[Undef, One], Undef),
    (Kind::Nand, &[Zero, Undef], One),
    (Kind::Nand, &[HighZ, HighZ], Undef),
    (Kind::Or, &[], Zero),
    (Kind::Or, &[HighZ, One], One),
    (Kind::Nor, &[Zero, Zero], One),
    (Kind::Xor, &[One, One, One], One),
    (Kind::Xor, &[One, HighZ], Undef),
    (Kind::Xnor, &[One, Zero, Zero], Zero),
    (Kind::Not, &[HighZ], Undef),
    (Kind::Buf, &[HighZ], Undef),
    (Kind::Buf, &[One], One),
    (Kind::Tri, &[Zero, One], HighZ),
    (Kind::Tri, &[One, HighZ], Undef),
    (Kind::Tri, &[HighZ, Zero], Undef),
    (Kind::Bus, &[], HighZ),
    (Kind::Bus, &[HighZ, One, HighZ], One),
    (Kind::Bus, &[Zero, One], Undef),
    (Kind::Bus, &[Undef, HighZ], Undef),
];

fn rows() -> &'static [(Kind, &'static [V4], V4)] {
    ROWS
}

#[test]
fn gates_answer_as_tabled(rt: HostRuntime) {
    for (kind, operands, want) in rows() {
        assert!(rt; gate(*kind, operands) == *want);
    }
}
