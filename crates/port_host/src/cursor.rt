//! The row of a cycle, without writing the repeats out.

ghost use Rattle.std.specs.Prelude.{ℕ, ◌≡◌, ◌+◌, ◌<◌, length, slice_get};
ghost use Rattle.net_defs.specs.{Time.cycle_count, Time.value_at, Valid.IsValidStimulus};
ghost use Rattle.port_host.specs.Rows.{values_in, turn_of, IsAt, IsOn};
ghost use Rattle.port_host.specs.code.Rows.{times_in};

use logic_four::V4;
use net_defs::Stimulus;

/// A row of the stimulus, and for how many cycles it still serves, this one among them.
#[derive(Clone, Copy)]
pub struct RowCursor {
    pub row: usize,
    pub rest: u32,
}

/// How far a run has come: the cycles that are over, the turns of this cycle that are over, and the
/// row of this cycle.
#[derive(Clone, Copy)]
pub struct Progress {
    pub rows: u32,
    pub unit: u32,
    pub cursor: RowCursor,
}

fn times(stim: &Stimulus, row: usize) -> u32
    ensures { result ≡ times_in (slice_get stim.now.rows row) }
{
    match stim.rows.get(row) {
        Some(row) => row.times,
        None => 0,
    }
}

/// At the first cycle.
pub fn first(stim: &Stimulus) -> RowCursor
    ensures { IsValidStimulus stim.now → IsAt stim.now 0 result }
{
    RowCursor {
        row: 0,
        rest: times(stim, 0),
    }
}

/// At the next cycle.
pub fn next(stim: &Stimulus, cursor: RowCursor) -> RowCursor
    requires { cursor.row < length stim.now.rows }
    ensures { (n : ℕ) → IsValidStimulus stim.now → IsAt stim.now n cursor
        → IsAt stim.now (n + 1) result }
{
    let _count = stim.rows.len();
    if cursor.rest > 1 {
        RowCursor {
            row: cursor.row,
            rest: cursor.rest - 1,
        }
    } else {
        RowCursor {
            row: cursor.row + 1,
            rest: times(stim, cursor.row + 1),
        }
    }
}

/// The value of a column in the cursor's row.
#[inline]
pub fn input_value(stim: &Stimulus, cursor: RowCursor, column: u32) -> V4
    requires stimulus { IsValidStimulus stim.now }
    requires row { cursor.row < length stim.now.rows }
    requires column { column < stim.now.columns }
    ensures { result ≡ value_at (values_in (slice_get stim.now.rows cursor.row)) column }
{
    stim.rows.as_slice()[cursor.row].values.as_slice()[column as usize]
}

/// Before the first turn.
pub fn begin(stim: &Stimulus) -> Progress
    requires { IsValidStimulus stim.now }
    ensures on { (units : ℕ) → 0 < units → IsOn stim.now units result }
    ensures turn { (units : ℕ) → turn_of units result ≡ 1 }
{
    Progress {
        rows: 0,
        unit: 0,
        cursor: first(stim),
    }
}

/// After one turn more, where a cycle has so many.
pub fn turn_over(stim: &Stimulus, units: u32, progress: Progress) -> Progress
    requires stimulus { IsValidStimulus stim.now }
    requires on { IsOn stim.now units progress }
    requires more { progress.rows < cycle_count stim.now }
    ensures on { IsOn stim.now units result }
    ensures turn { turn_of units result ≡ turn_of units progress + 1 }
{
    let unit = progress.unit + 1;
    if unit == units {
        Progress {
            rows: progress.rows + 1,
            unit: 0,
            cursor: next(stim, progress.cursor),
        }
    } else {
        Progress {
            rows: progress.rows,
            unit,
            cursor: progress.cursor,
        }
    }
}
