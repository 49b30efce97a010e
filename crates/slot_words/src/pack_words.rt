//! Words that threads share, under the same rule, where each send has the values of thirty lanes at once. They are
//! those of a crossbar of one bank, but for what the words of sends hold. A packed crossbar is thirty crossbars of
//! one bank that step together: a step takes or puts the values of all lanes, and what is taken is in each lane the
//! image's value of this turn.
//!
//! The word of a send has in its four lower bits the turn modulo 16 in which it was put last, and above them the
//! planes of a bit a lane each. Since a reader is behind its sender by one turn at most, the turn modulo 16 tells
//! the two apart.

mod bar;
pub mod law;
mod words;

pub use bar::{PackBar, PackPass};
pub use lane_planes::{Planes, eval_planes, settle_planes};
pub use words::{PackTaken, packed_word};
