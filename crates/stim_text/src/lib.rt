//! The stimulus text, the text of lanes and the order text. A stimulus has the values of the inputs in each cycle,
//! a text of lanes several stimuli, and an order says whose step comes when.
//!
//! Stimulus text: a line outside its comment is blank, or it is a row: the values of the inputs in
//! file order, each one of `0`, `1`, `x`, `X`, `z` and `Z`, with blanks anywhere, and then, where the
//! row stands for several cycles, `*` and their number, 1 to 1,000,000, with blanks around. A row of a
//! netlist without inputs has the single byte `-` in place of values. All rows together stand for at
//! most 1,000,000 cycles.
//!
//! Order text: a line outside its comment is blank, or it is the number of a port with blanks around,
//! and then, where it stands for several steps of the port, `*` and their number, as in a row. All
//! lines together stand for at most 1,000,000,000 steps.
//!
//! Text of lanes: a line that has outside its comment the word `lane` alone, with blanks around, begins
//! a lane, and the lines from there to the next such line are a stimulus text. Before the first lane
//! each line is blank outside its comment. There are at most `LANES` lanes, each with cycles of its own.
//!
//! All three formats are this project's profile.
//!
//! ```
//! let stim = read_stim(alloc, b"10101 * 2\n0x01z\n", 5)?; // three cycles of five inputs
//! let lanes = read_lanes(alloc, b"lane\n11111\nlane\n00000\n", 5)?; // two stimuli of one cycle each
//! let order = read_order(alloc, b"3 * 1000\n", 4)?; // 1,000 steps of port 3 of four
//! ```
#![tactic(auto)]

pub mod lane_law;
mod lane_line;
mod lane_reading;
mod lanes;
pub mod law;
mod order;
pub mod order_law;
mod order_line;
mod order_reading;
mod reading;
mod refusal;
mod repeat;
mod row;

pub use lane_reading::read_lanes;
pub use lanes::Lanes;
pub use order::{Order, OrderLine};
pub use order_reading::read_order;
pub use reading::read_stim;
pub use refusal::{LaneNo, OrderNo, StimNo};
