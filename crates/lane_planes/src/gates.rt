//! Gates of up to four operands in all lanes at once.

ghost use Rattle.std.specs.Prelude.{◌≡◌, ◌∷◌, [], ◌-◌, ◌<◌, ◌≤◌, ℕ, take};
ghost use Rattle.std.specs.List.{fold};
ghost use Rattle.limits.specs.declared.TheConstants.{LANES};
ghost use Rattle.logic_four.specs.{Kinds.AllowsOperands, Gates.gate_value};
ghost use Rattle.lane_planes.specs.{Lanes.lane_of, Joins.first_of, Joins.join_of, Joins.answer_of};

use crate::Planes;
use crate::formula::{gate_two, pair_form};
use crate::pairs::{and_two, bus_two, inverted, or_two, settle_planes, tri_two, xor_two};
use logic_four::Kind;

/// The first operand of a gate of this kind, as further ones are joined to it by `joined`.
#[inline]
pub fn first_operand(kind: Kind, p: Planes) -> Planes
    ensures { (k : ℕ) → k < LANES → lane_of result k ≡ first_of kind (lane_of p k) }
{
    match kind {
        Kind::Tri | Kind::Bus => p,
        _ => settle_planes(p),
    }
}

/// The operands so far of a gate of this kind, and one more.
#[inline]
pub fn joined(kind: Kind, so_far: Planes, p: Planes) -> Planes
    ensures { (k : ℕ) → k < LANES → lane_of result k ≡ join_of kind (lane_of so_far k) (lane_of p k) }
{
    match kind {
        Kind::And | Kind::Nand => and_two(so_far, p),
        Kind::Or | Kind::Nor => or_two(so_far, p),
        Kind::Xor | Kind::Xnor => xor_two(so_far, p),
        Kind::Not | Kind::Buf => settle_planes(so_far),
        Kind::Tri => tri_two(so_far, p),
        Kind::Bus => bus_two(so_far, p),
    }
}

/// What a gate of this kind answers once all its operands are joined.
#[inline]
pub fn answered(kind: Kind, base: Planes) -> Planes
    ensures { (k : ℕ) → k < LANES → lane_of result k ≡ answer_of kind (lane_of base k) }
{
    match kind {
        Kind::Nand | Kind::Nor | Kind::Xnor | Kind::Not => inverted(base),
        _ => base,
    }
}

/// The operands of a gate of this kind joined, of its first operand and up to three others.
#[inline]
fn joined_four(kind: Kind, operands: u32, first: Planes, b: Planes, c: Planes, d: Planes) -> Planes
    requires { operands ≤ 4 }
    ensures { (k : ℕ) → k < LANES → lane_of result k ≡ fold (join_of kind) (lane_of first k)
        (take (operands - 1) (lane_of b k ∷ lane_of c k ∷ lane_of d k ∷ [])) }
{
    match operands {
        0 | 1 => first,
        2 => joined(kind, first, b),
        3 => joined(kind, joined(kind, first, b), c),
        _ => joined(kind, joined(kind, joined(kind, first, b), c), d),
    }
}

/// What a gate of this kind answers in each lane for the first `operands` of four. The others don't
/// change the answer.
#[inline]
pub fn gate_planes(kind: Kind, operands: u32, a: Planes, b: Planes, c: Planes, d: Planes) -> Planes
    requires few { operands ≤ 4 }
    requires allowed { AllowsOperands kind operands }
    ensures { (k : ℕ) → k < LANES → lane_of result k ≡ gate_value kind (take operands (lane_of a k ∷ lane_of b k ∷ lane_of c k ∷ lane_of d k ∷ [])) }
{
    if operands == 2 {
        return gate_two(pair_form(kind), a, b);
    }
    let base = joined_four(kind, operands, first_operand(kind, a), b, c, d);
    answered(kind, base)
}
