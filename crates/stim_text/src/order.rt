//! Orders: whose step comes when.

use seen_list::List;

/// Steps of one port, one after another: `times` of them, 1 to 1,000,000.
#[derive(Clone, Copy)]
pub struct OrderLine {
    pub port: u32,
    pub times: u32,
}

/// The steps of ports in the order in which they come, line after line. There are at most
/// 1,000,000,000 steps; a line keeps its own in one number.
#[derive(Drop)]
pub struct Order {
    pub lines: List<OrderLine>,
}
