//! What a port does next, but for the value.

/// What a port is to do next. A plain port and a packed one do the same, but for the values.
#[derive(Clone, Copy)]
pub enum Upcoming {
    /// To look how many turns this reader has finished.
    Ask { reader: u32 },
    /// To write the values of its item in this slot.
    Put { slot: u32 },
    /// To read the values that are sent to it in this slot.
    Take { slot: u32 },
    /// To tell that it has finished its turn.
    Tell,
    /// Nothing: it has finished its last turn.
    Done,
}
