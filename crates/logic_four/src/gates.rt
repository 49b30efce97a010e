//! What a gate answers for its operands.

ghost use Rattle.std.specs.{Prelude.◌≡◌, Prelude.count_by, List.list_any, List.list_all};
ghost use Rattle.logic_four.specs.Gates.{is_zero, is_one, is_known, is_high_z, and_value, or_value, is_odd_parity, xor_value, is_driven_zero, is_driven_one, bus_value, tri_value, gate_value};
ghost use Rattle.logic_four.specs.Values.{settled, inverse, value_at};

use crate::values::{not, settle};
use crate::{Kind, V4};

fn any_zero(vs: &[V4]) -> bool
    ensures { result ≡ list_any is_zero vs.now }
{
    vs.iter().any(|v| matches!(v, V4::Zero))
}

fn all_zero(vs: &[V4]) -> bool
    ensures { result ≡ list_all is_zero vs.now }
{
    vs.iter().all(|v| matches!(v, V4::Zero))
}

fn any_one(vs: &[V4]) -> bool
    ensures { result ≡ list_any is_one vs.now }
{
    vs.iter().any(|v| matches!(v, V4::One))
}

fn all_one(vs: &[V4]) -> bool
    ensures { result ≡ list_all is_one vs.now }
{
    vs.iter().all(|v| matches!(v, V4::One))
}

fn all_known(vs: &[V4]) -> bool
    ensures { result ≡ list_all is_known vs.now }
{
    vs.iter().all(|v| matches!(v, V4::Zero | V4::One))
}

fn odd_parity(vs: &[V4]) -> bool
    ensures { result ≡ is_odd_parity vs.now }
{
    vs.iter().filter(|v| matches!(v, V4::One)).count() % 2 == 1
}

fn all_high_z(vs: &[V4]) -> bool
    ensures { result ≡ list_all is_high_z vs.now }
{
    vs.iter().all(|v| matches!(v, V4::HighZ))
}

fn all_driven_zero(vs: &[V4]) -> bool
    ensures { result ≡ is_driven_zero vs.now }
{
    vs.iter().all(|v| matches!(v, V4::Zero | V4::HighZ))
}

fn all_driven_one(vs: &[V4]) -> bool
    ensures { result ≡ is_driven_one vs.now }
{
    vs.iter().all(|v| matches!(v, V4::One | V4::HighZ))
}

/// The AND of all operands, and 1 of none.
pub fn and_all(vs: &[V4]) -> V4
    ensures { result ≡ and_value vs.now }
{
    if any_zero(vs) {
        V4::Zero
    } else if all_one(vs) {
        V4::One
    } else {
        V4::Undef
    }
}

/// The OR of all operands, and 0 of none.
pub fn or_all(vs: &[V4]) -> V4
    ensures { result ≡ or_value vs.now }
{
    if any_one(vs) {
        V4::One
    } else if all_zero(vs) {
        V4::Zero
    } else {
        V4::Undef
    }
}

/// The XOR of all operands, and 0 of none.
pub fn xor_all(vs: &[V4]) -> V4
    ensures { result ≡ xor_value vs.now }
{
    if all_known(vs) {
        if odd_parity(vs) { V4::One } else { V4::Zero }
    } else {
        V4::Undef
    }
}

/// What a wire has that all operands drive, and high impedance of none.
pub fn bus_all(vs: &[V4]) -> V4
    ensures { result ≡ bus_value vs.now }
{
    if all_high_z(vs) {
        V4::HighZ
    } else if all_driven_zero(vs) {
        V4::Zero
    } else if all_driven_one(vs) {
        V4::One
    } else {
        V4::Undef
    }
}

/// What a driver with the enable `en` puts on its wire: the settled `d` while it is enabled.
pub fn tri(en: V4, d: V4) -> V4
    ensures { result ≡ tri_value en d }
{
    match en {
        V4::Zero => V4::HighZ,
        V4::One => settle(d),
        V4::Undef | V4::HighZ => V4::Undef,
    }
}

fn operand(operands: &[V4], place: usize) -> V4
    ensures { result ≡ value_at operands.now place }
{
    if place < operands.len() {
        operands[place]
    } else {
        V4::Undef
    }
}

/// What a gate of this kind answers. It is defined for any number of operands: `Not` and `Buf` look
/// at the first alone, `Tri` at the first two, and one that is missing there counts as undefined.
pub fn gate(kind: Kind, operands: &[V4]) -> V4
    ensures { result ≡ gate_value kind operands.now }
{
    match kind {
        Kind::And => and_all(operands),
        Kind::Nand => not(and_all(operands)),
        Kind::Or => or_all(operands),
        Kind::Nor => not(or_all(operands)),
        Kind::Xor => xor_all(operands),
        Kind::Xnor => not(xor_all(operands)),
        Kind::Not => not(operand(operands, 0)),
        Kind::Buf => settle(operand(operands, 0)),
        Kind::Tri => tri(operand(operands, 0), operand(operands, 1)),
        Kind::Bus => bus_all(operands),
    }
}
