//! Gates of two operands in all lanes at once, by one formula for the usual kinds.

ghost use Rattle.std.specs.Prelude.{◌≡◌, ◌∷◌, [], ◌<◌, ◌^◌, ℕ, true};
ghost use Rattle.limits.specs.declared.TheConstants.{LANES};
ghost use Rattle.logic_four.specs.Gates.{gate_value};
ghost use Rattle.lane_planes.specs.Formula.{turns_operands, turns_answer, is_parity, mask_of};
ghost use Rattle.lane_planes.specs.{Lanes.lane_of, code.Formula.is_usual};

use crate::gates::{answered, first_operand, joined};
use crate::{ALL, PairForm, Planes};
use logic_four::Kind;

/// The form of a kind.
#[inline]
pub fn pair_form(kind: Kind) -> PairForm
    ensures { result.kind ≡ kind }
{
    PairForm {
        kind,
        operands: mask_of(turns_operands(kind)),
        answer: mask_of(turns_answer(kind)),
        parity: mask_of(is_parity(kind)),
    }
}

/// What a gate of this form answers in each lane for two operands. For the usual kinds it makes no choice
/// by the kind: where a processor guesses wrong at one, it loses more time than all the rest takes.
#[inline]
pub fn gate_two(form: PairForm, p: Planes, q: Planes) -> Planes
    ensures { (k : ℕ) → k < LANES → lane_of result k ≡ gate_value form.kind (lane_of p k ∷ lane_of q k ∷ []) }
{
    if is_usual(form.kind) {
        usual_two(form, p, q)
    } else {
        other_two(form.kind, p, q)
    }
}

/// The formula. An operand that is undefined isn't settled first: where the answer is known all the same, the
/// other operand decides it.
#[inline]
fn usual_two(form: PairForm, p: Planes, q: Planes) -> Planes
    requires { is_usual form.kind ≡ true }
    ensures { (k : ℕ) → k < LANES → lane_of result k ≡ gate_value form.kind (lane_of p k ∷ lane_of q k ∷ []) }
{
    let one = p.low ^ form.operands;
    let other = q.low ^ form.operands;
    let high = (p.high | q.high) & (((one | p.high) & (other | q.high)) | form.parity);
    let low = ((one & (other | form.parity)) ^ (other & form.parity)) ^ form.answer;
    Planes {
        low: low & !high,
        high,
    }
}

/// The answer of any kind, step by step. `Not` and `Buf` look at the first operand alone.
fn other_two(kind: Kind, p: Planes, q: Planes) -> Planes
    ensures { (k : ℕ) → k < LANES → lane_of result k ≡ gate_value kind (lane_of p k ∷ lane_of q k ∷ []) }
{
    answered(kind, joined(kind, first_operand(kind, p), q))
}

#[inline]
fn is_usual(kind: Kind) -> bool
    ensures { result ≡ is_usual kind }
{
    match kind {
        Kind::Not | Kind::Buf | Kind::Tri | Kind::Bus => false,
        _ => true,
    }
}

#[inline]
fn turns_operands(kind: Kind) -> bool
    ensures { result ≡ turns_operands kind }
{
    match kind {
        Kind::Or | Kind::Nor => true,
        _ => false,
    }
}

#[inline]
fn turns_answer(kind: Kind) -> bool
    ensures { result ≡ turns_answer kind }
{
    match kind {
        Kind::Nand | Kind::Or | Kind::Xnor => true,
        _ => false,
    }
}

#[inline]
fn is_parity(kind: Kind) -> bool
    ensures { result ≡ is_parity kind }
{
    match kind {
        Kind::Xor | Kind::Xnor => true,
        _ => false,
    }
}

/// All lanes, or none.
#[inline]
fn mask_of(all: bool) -> u32
    ensures { result ≡ mask_of all }
{
    if all { ALL } else { 0 }
}
