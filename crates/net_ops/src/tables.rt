//! Gates of two operands as tables of all sixteen answers.

ghost use Rattle.std.specs.Prelude.{◌≡◌, ◌∷◌, []};
ghost use Rattle.logic_four.specs.{declared.V4.V4, Gates.gate_value};
ghost use Rattle.net_ops.specs.Tables.{table_value};

use logic_four::{Kind, V4, code, decoded};

/// What a table answers for two values. It has the two-bit code of the answer at bit 2 (code of a + 4 code of b).
#[inline]
pub(crate) fn table_value(table: u32, a: V4, b: V4) -> V4
    ensures { result ≡ table_value table a b }
{
    decoded(u64::from(table) >> (2 * (code(a) + 4 * code(b))))
}

/// The answers of a gate of this kind for two operands.
pub(crate) fn pair_table(kind: Kind) -> u32
    ensures { (a b : V4) → table_value result a b ≡ gate_value kind (a ∷ b ∷ []) }
{
    match kind {
        Kind::And => 0xa8a8_a400,
        Kind::Nand => 0xa9a9_a155,
        Kind::Or => 0xa6a6_55a4,
        Kind::Nor => 0xa2a2_00a1,
        Kind::Xor => 0xaaaa_a1a4,
        Kind::Xnor => 0xaaaa_a4a1,
        Kind::Not => 0xa1a1_a1a1,
        Kind::Buf => 0xa4a4_a4a4,
        Kind::Tri => 0xabab_a7a3,
        Kind::Bus => 0xe4aa_6628,
    }
}
