//! The settings of the switch.

use seen_list::List;

/// In this slot the port sends its item to these ports.
#[derive(Drop)]
pub struct Sending {
    pub slot: u32,
    /// The ports that read the item, at least one, in ascending order.
    pub readers: List<u32>,
}

/// In this slot the port receives what the sender sends.
#[derive(Clone, Copy)]
pub struct Receipt {
    pub slot: u32,
    pub sender: u32,
}

/// What one port sends and receives in a turn, each in slot order, and at most once in a slot.
#[derive(Drop)]
pub struct PortLinks {
    pub sends: List<Sending>,
    pub receipts: List<Receipt>,
}

/// The links of every port, in port order.
#[derive(Drop)]
pub struct Switch {
    pub ports: List<PortLinks>,
}
