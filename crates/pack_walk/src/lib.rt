//! A packed port of any kind with its place in the turn: it executes its items by itself in all lanes, as
//! far as it can, and tells what comes next between it and the other ports. And the packed host: it feeds
//! the inputs of each lane from the rows of that lane's stimulus, and keeps what is printed in each lane
//! after the last turn of each cycle.
//!
//! ```
//! let mut host = PackPlaced::new(alloc, &image, &lanes, 3)?; // the host of c17 on two logic processors
//! let action = host.next(&[0, 0, 0, 0]); // PackAction::Put { slot: 0 }
//! let values = host.value(); // the first input in the first row of each lane
//! host.put_done();
//! ```
#![tactic(auto)]

mod cells;
mod feed;
mod kind;
mod placed;
mod port;
mod rows;

pub use placed::PackPlaced;
pub use port::PackHost;
pub use port_walk::Upcoming as PackAction;
