//! The rows of the lanes, by one cursor for each lane that is given.

ghost use Rattle.std.specs.Prelude.{ℕ, ◌≡◌, ◌+◌, ◌<◌, length, slice_get, IfOk};
ghost use Rattle.logic_four.specs.Values.{value_at};
ghost use Rattle.net_defs.specs.Valid.{IsValidStimulus};
ghost use Rattle.port_host.specs.Rows.{values_in, IsAt};
ghost use Rattle.pack_walk.specs.code.Feeds.{AreAt, AreMoved, AreValid};

use logic_four::V4;
use net_defs::Stimulus;
use port_host::cursor::{RowCursor, first, input_value, next};
use seen_list::{List, Memory};
use std::alloc::Global;

/// At the next cycle. Behind all rows it stays.
fn next_row(stim: &Stimulus, cursor: RowCursor) -> RowCursor
    requires { IsValidStimulus stim.now }
    ensures { (n : ℕ) → IsAt stim.now n cursor → IsAt stim.now (n + 1) result }
{
    if cursor.row < stim.rows.len() {
        next(stim, cursor)
    } else {
        cursor
    }
}

/// The value of a column in the cursor's row, and X behind all rows.
#[inline]
pub(crate) fn row_value(stim: &Stimulus, cursor: RowCursor, column: u32) -> V4
    requires stimulus { IsValidStimulus stim.now }
    requires column { column < stim.now.columns }
    ensures { result ≡ value_at (values_in (slice_get stim.now.rows cursor.row)) column }
{
    if cursor.row < stim.rows.len() {
        input_value(stim, cursor, column)
    } else {
        V4::Undef
    }
}

/// The cursors of these lanes at the first cycle.
pub(crate) fn first_rows(alloc: Global, lanes: &[Stimulus]) -> Result<List<RowCursor>, Memory>
    requires { AreValid lanes.now }
    ensures { IfOk result (AreAt lanes.now 0) }
{
    let mut cursors = List::new(alloc);
    'lanes: for stim in lanes {
        cursors.push(first(stim))?;
    }
    Ok(cursors)
}

/// Moves the cursors of these lanes to the next cycle.
pub(crate) fn next_rows(lanes: &[Stimulus], cursors: &mut List<RowCursor>)
    requires count { length cursors.old ≡ length lanes.now }
    requires valid { AreValid lanes.now }
    ensures count { length cursors.new ≡ length cursors.old }
    ensures moved { (n : ℕ) → AreAt lanes.now n cursors.old → AreAt lanes.now (n + 1) cursors.new }
{
    'lanes: for l in 0..lanes.len() {
        let cursor = next_row(&lanes[l], cursors.as_slice()[l]);
        cursors.set(l, cursor);
    }
}
