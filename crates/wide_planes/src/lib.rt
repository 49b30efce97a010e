//! The values of 256 lanes in two vectors of words, and the gates that work on all of them at once.
//!
//! ```
//! let planes = with_lane(in_all_lanes(V4::Zero), 200, V4::One); // 1 in lane 200, and 0 in the other 255
//! let answers = gate_two(Kind::Nand, planes, in_all_lanes(V4::One)); // in all lanes at once
//! let value = lane(answers, 200); // V4::Zero
//! ```
#![tactic(auto)]

mod gates;
mod lanes;
mod pairs;
mod planes;
mod words;

pub use gates::gate_two;
pub use lanes::{in_all_lanes, lane, with_lane};
pub use pairs::{forced, opposite, settle_planes};
pub use planes::{Wide, Words};

/// The lanes of wide planes.
pub const WIDE_LANES: u32 = 256;
