//! Homes and slots.

use seen_list::List;

/// At which port each item and each memory is. Logic ports are 0 to `logic - 1`, array ports come
/// after them, and the host is the last port, `logic + array`.
#[derive(Drop)]
pub struct Homes {
    /// The machine's logic processors, 1 to 254.
    pub logic: u32,
    /// The machine's array processors, 0 to 64.
    pub array: u32,
    /// The port of each item, in item order.
    pub items: List<u32>,
    /// The port of each memory, in the order of the memories.
    pub blocks: List<u32>,
}

/// In which slot of a turn each item is computed and sent.
#[derive(Drop)]
pub struct Plan {
    /// The slot of each item, in item order, counted from 0.
    pub slots: List<u32>,
    /// The slots that a turn wants: one more than the greatest, and 0 without items.
    pub needed: u32,
}
