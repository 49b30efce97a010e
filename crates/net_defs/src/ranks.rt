//! Ranks.

use seen_list::List;

/// An order of all gates, and the rank of each signal.
#[derive(Drop)]
pub struct Ranks {
    pub order: List<u32>,
    pub rank: List<u32>,
}
