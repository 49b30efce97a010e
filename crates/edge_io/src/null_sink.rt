//! A sink that keeps nothing.

ghost use Rattle.std.specs.Prelude.{◌≡◌, Ok, length};

use crate::counts::raise;
use crate::{Failed, Sink};
use std::marker::Model;

/// Takes every piece whole and keeps none of it. It tells no bytes, and has no faults.
///
/// A contract sees it as the number of its writes.
#[derive(Drop)]
pub struct NullSink {
    writes: u64,
}

impl Model for NullSink {
    ghost use Rattle.std.specs.Prelude.{ℕ};

    ghost Value = { ℕ };

    ghost view = { λ s. s.writes };
}

impl NullSink {
    /// A sink before its first write. It takes no memory.
    pub fn new() -> NullSink
        ensures { result ≡ 0 }
    {
        NullSink { writes: 0 }
    }
}

impl Sink for NullSink {
    ghost use Rattle.std.specs.Prelude.{None};
    ghost use Rattle.edge_io.specs.Counts.{raised};

    ghost taken = { λ _. None };

    ghost faults = { λ _. 0 };

    ghost writes = { λ s. s };

    fn write(&mut self, piece: &[u8]) -> Result<usize, Failed>
        ensures answer { result ≡ Ok (length piece.now) }
        ensures after { self.new ≡ raised self.old 1 }
    {
        raise(&mut self.writes, 1);
        Ok(piece.len())
    }
}
