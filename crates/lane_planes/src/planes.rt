//! The values of all lanes side by side, and how a gate works on them.

ghost use Rattle.std.specs.Prelude.{◌≡◌, ◌<◌, ◌^◌};
ghost use Rattle.limits.specs.declared.TheConstants.{LANES};
ghost use Rattle.lane_planes.specs.Formula.{is_parity, mask_of, turns_answer, turns_operands};

use logic_four::Kind;

/// Values side by side, one a lane. Lane `k` of the `LANES` lanes, counted from 0, has the code whose lower
/// bit is bit `k` of `low`, and whose upper bit is bit `k` of `high`.
#[derive(Clone, Copy, PartialEq, Eq)]
pub struct Planes {
    pub low: u32,
    pub high: u32,
    pub ghost low_small: { low < 2 ^ LANES },
    pub ghost high_small: { high < 2 ^ LANES },
}

/// How gates of a kind answer for two operands: the kind, and what the formula does for it, as masks of all lanes or
/// of none.
#[derive(Clone, Copy)]
pub struct PairForm {
    pub kind: Kind,
    /// The formula inverts the operands.
    pub operands: u32,
    /// It inverts the answer.
    pub answer: u32,
    /// It is XOR of the operands, and not AND.
    pub parity: u32,
    pub ghost operands_are: { operands ≡ mask_of (turns_operands kind) },
    pub ghost answer_is: { answer ≡ mask_of (turns_answer kind) },
    pub ghost parity_is: { parity ≡ mask_of (is_parity kind) },
}
