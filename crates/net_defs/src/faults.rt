//! Stuck faults.

use logic_four::V4;

/// A signal that has the same value at every turn: 0 or 1.
#[derive(Clone, Copy)]
pub struct Fault {
    /// The number of the signal, in signal order from 0.
    pub signal: u32,
    pub value: V4,
}
