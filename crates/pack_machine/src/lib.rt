//! A whole machine that runs up to thirty stimuli at once: packed ports on the threads of a crew, and then the
//! trace of each lane. Each port of the image is dealt to one worker of the crew, which steps it over one packed
//! crossbar through the turns of the longest stimulus, in a thread of its own where one can be made. The host keeps
//! what is printed in all lanes at once, and once the run is over the trace of each lane is written from that.
//!
//! ```
//! let wrote = run_pack(&rt, alloc, &net, &image, &lanes, 4, gates.as_mut_slice(), &mut out)?;
//! // Ok(()): `out` took "lane 1\n" and the trace of the first stimulus, and so on
//! ```
#![tactic(auto)]

mod lines;
mod machine;
mod seats;

pub use machine::run_pack;
