//! The values that a trace prints.

use logic_four::V4;
use seen_list::List;

/// The printed values of one cycle, in the order of the printed names.
#[derive(Drop)]
pub struct CellRow {
    pub cells: List<V4>,
}

/// The printed values of each cycle.
#[derive(Drop)]
pub struct Rows {
    pub rows: List<CellRow>,
}
