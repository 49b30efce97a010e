//! Operations on two places of a row.

ghost use Rattle.std.specs.Prelude.{◌≡◌, ◌<◌, ◌≤◌, ℕ, length, All};
ghost use Rattle.net_ops.specs.{Lanes.lane_row, Ops.IsWithin, Ops.follow};

use crate::wire::Wire;

/// Puts into the place `gate` what a gate of this form answers for the values in the places `a` and `b`.
#[derive(Clone, Copy)]
pub struct PairOp<F> {
    pub gate: u32,
    pub a: u32,
    pub b: u32,
    pub form: F,
}

/// Does all operations, one after the other, in all lanes at once. What is stuck keeps its value.
pub(crate) fn do_ops<W: Wire>(row: &mut [W], forces: &W::Forces, ops: &[PairOp<W::Form>])
    requires within { All (IsWithin W.is_form (length row.old) (length row.old)) ops.now }
    requires forces { All (λ op. W.tells forces.now op.gate) ops.now }
    ensures long { length row.new ≡ length row.old }
    ensures lanes { (l : ℕ) → l < W.lanes → lane_row W.lane l row.new ≡ follow W.answer (W.held forces.now l) ops.now (lane_row W.lane l row.old) }
{
    'ops: for op in ops {
        let answer = W::pair(op.form, row[op.a as usize], row[op.b as usize]);
        row[op.gate as usize] = answer.forced(forces, op.gate);
    }
}
