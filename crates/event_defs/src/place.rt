//! Where a port stands in its turn, and what it does.

use logic_four::V4;
use seen_list::List;

/// Where a port stands: its turn, counted from 1, the slots whose items it has sent in this turn,
/// those in which it has received, and for each port how many turns it knows that port to have
/// finished.
#[derive(Drop)]
pub struct Place {
    pub turn: u64,
    pub puts: List<u32>,
    pub takes: List<u32>,
    pub known: List<u64>,
}

/// What a port is to do next.
#[derive(Clone, Copy)]
pub enum Action {
    /// To look how many turns this reader has finished.
    Ask { reader: u32 },
    /// To write the value of its item in this slot.
    Put { slot: u32, value: V4 },
    /// To read the value that is sent to it in this slot.
    Take { slot: u32 },
    /// To tell that it has finished its turn.
    Tell,
    /// Nothing: it has finished its last turn.
    Done,
}

/// What a port did.
#[derive(Clone, Copy)]
pub enum Event {
    /// It looked how many turns this reader has finished, and they were enough.
    Ask { reader: u32 },
    /// It wrote the value of its item in this slot.
    Put { slot: u32 },
    /// It read the value of this turn that is sent to it in this slot.
    Take { slot: u32 },
    /// It told that it has finished its turn.
    Tell,
}

/// What came of a step of a port.
#[derive(Clone, Copy)]
pub enum CoreStep {
    /// It made this event.
    Moved(Event),
    /// A reader has finished too few turns, or what it is to receive isn't there yet.
    NotYet,
    /// It has finished its last turn.
    Done,
}
