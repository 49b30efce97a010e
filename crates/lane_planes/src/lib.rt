//! The values of all lanes in two words, and the gates and tables that work on all of them at once.
//!
//! ```
//! let planes = with_lane(in_all_lanes(V4::Zero), 7, V4::One); // 1 in lane 7, and 0 in the other 29
//! let answers = gate_two(pair_form(Kind::Nand), planes, in_all_lanes(V4::One)); // in all lanes at once
//! let value = lane(answers, 7); // V4::Zero
//! ```
#![tactic(auto)]

mod formula;
mod gates;
mod lanes;
mod laws;
mod pairs;
mod planes;
mod tables;

pub use formula::{gate_two, pair_form};
pub use gates::{answered, first_operand, gate_planes, joined};
pub use lanes::{in_all_lanes, in_each_lane, lane, with_lane};
pub use laws::{join_laws, lanes_decide};
use limits::LANES;
pub use pairs::{forced, settle_planes};
pub use planes::{PairForm, Planes};
pub use tables::{TableForm, eval_form, eval_planes, form_of};

/// A word whose lower bits are 1, one for each lane.
const ALL: u32 = (1 << LANES) - 1;
