//! The values of a row, lane by lane.

ghost use Rattle.std.specs.Prelude.{◌≡◌, ◌≢◌, ℕ, ◌+◌, ◌<◌, ◌≤◌, length, map, All};
ghost use Rattle.logic_four.specs.declared.V4.{V4};
ghost use Rattle.net_defs.specs.Time.{value_at};
ghost use Rattle.net_ops.specs.{Lanes.lane_row, code.Values.Puts, code.Values.IsStagedTo, code.Values.Keeps};

use crate::wire::Wire;
use logic_four::V4;
use seen_list::List;

/// Copies the values of this turn, the first `count`, to the places of the last turn after them.
pub(crate) fn keep<W: Wire>(row: &mut List<W>, count: usize)
    requires { count + count ≤ length row.old }
    ensures { Keeps count row.old row.new }
{
    let (this, rest) = row.as_mut_slice().split_at_mut(count);
    rest[..count].copy_from_slice(this);
}

/// Puts values into the places of a list in one lane, in their order.
pub(crate) fn put_all<W: Wire>(row: &mut List<W>, list: &[u32], from: &[V4], l: usize)
    requires lane { l < W.lanes }
    requires places { All (λ s. s < length row.old) list.now }
    requires long { length list.now ≡ length from.now }
    ensures signals { length row.new ≡ length row.old }
    ensures puts { (f : ℕ → V4) → IsStagedTo list.now f (length list.now) from.now
        → Puts list.now f (length list.now) (lane_row W.lane l row.old) (lane_row W.lane l row.new) }
    ensures others { (k : ℕ) → k < W.lanes → k ≢ l → lane_row W.lane k row.new ≡ lane_row W.lane k row.old }
{
    'places: for k in 0..list.len() {
        let here = row.as_slice()[list[k] as usize];
        row.set(list[k] as usize, here.with(l, from[k]));
    }
}

/// Puts what these signals have in one lane, read from the place `base` on, into a list of as many.
pub fn gather<W: Wire>(list: &mut [V4], row: &[W], base: usize, signals: &[u32], l: usize)
    requires lane { l < W.lanes }
    requires long { length list.old ≡ length signals.now }
    requires places { All (λ s. base + s < length row.now) signals.now }
    ensures { list.new ≡ map (λ s. value_at (lane_row W.lane l row.now) (base + s)) signals.now }
{
    for k in 0..signals.len() {
        list[k] = row[base + signals[k] as usize].at(l);
    }
}
