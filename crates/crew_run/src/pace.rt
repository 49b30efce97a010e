//! How far a member goes that is stepped, and who learns that it moves.

use crate::pulse::Pulse;

/// What a worker's members keep to, beside their events. No contract speaks of it.
pub trait Pace {
    /// Whether a member in this turn goes no further for now.
    fn halts(&self, turn: u64) -> bool;

    /// A member has moved.
    fn moved(&self);
}

/// In threads members go as far as they can.
impl Pace for Pulse {
    fn halts(&self, _turn: u64) -> bool {
        false
    }

    fn moved(&self) {
        self.answer();
    }
}

/// In the calling thread alone members go up to this turn.
#[derive(Drop)]
pub struct UpTo(pub u64);

impl Pace for UpTo {
    fn halts(&self, turn: u64) -> bool {
        turn >= self.0
    }

    fn moved(&self) {}
}

/// In the calling thread alone members make the visits that were written down.
#[derive(Drop)]
pub struct ByVisits;

impl Pace for ByVisits {
    fn halts(&self, _turn: u64) -> bool {
        false
    }

    fn moved(&self) {}
}
