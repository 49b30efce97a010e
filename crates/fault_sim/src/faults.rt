//! Verdicts.

/// Where a fault is first seen at a printed name.
#[derive(Clone, Copy)]
pub enum Verdict {
    Seen {
        /// The least cycle, counted from 1.
        cycle: u32,
        /// The least column of that cycle, counted from 0 in the order of the printed names.
        column: u32,
    },
    /// In no cycle.
    Unseen,
}
