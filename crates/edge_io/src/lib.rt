//! Whole reads and whole writes over a store of files and a sink for bytes, each a trait, with
//! implementations over memory and over the host.
//!
//! ```
//! let mut files = HostFiles::new(&rt);
//! let bytes = read_file(alloc, &mut files, b"c17.bench", 1_000_000)?; // ReadNo::TooLong if there are more
//! let mut out = HostSink::new(rt.stdout());
//! let wrote = write_whole(&mut out, bytes.as_slice()); // Ok(()): all of them
//! ```
#![tactic(auto)]

mod counts;
mod files;
mod host;
mod mem_files;
mod mem_sink;
mod null_sink;
mod plain_files;
mod plain_sink;
mod reading;
mod script;
mod sink;
mod writing;

pub use files::Files;
pub use host::{HostFiles, HostSink};
pub use mem_files::{MemFiles, NamedBytes};
pub use mem_sink::MemSink;
pub use null_sink::NullSink;
pub use plain_files::PlainFiles;
pub use plain_sink::PlainSink;
pub use reading::{ReadNo, read_file};
pub use sink::Sink;
pub use writing::{WriteNo, write_piece, write_whole};

/// A fault of starting a file, of reading or of writing.
#[derive(Clone, Copy, PartialEq, Eq)]
pub struct Failed;
