//! A sink for bytes.

ghost use Rattle.std.specs.Prelude.{◌≡◌, ℕ, Option, ◌<◌, ◌≤◌, List, length, take, IfOk, OnErr};
ghost use Rattle.std.specs.Io.KnownBytes.{append_known};
ghost use Rattle.edge_io.specs.Counts.{raised, Rose};

use crate::Failed;

/// What takes bytes.
///
/// A sink may tell the bytes that it has taken so far. Its counts stand still at the last value of
/// a `u64`, and none of them ever falls.
pub trait Sink {
    // the bytes taken so far, where they are told
    ghost taken: { Self → Option (List ℕ) };

    // the faults
    ghost faults: { Self → ℕ };

    // the calls of `write`
    ghost writes: { Self → ℕ };

    /// Takes a prefix of the piece, and answers its length. It takes nothing only of an empty
    /// piece.
    fn write(&mut self, piece: &[u8]) -> Result<usize, Failed>
        ensures bound { IfOk result (λ n. n ≤ length piece.now) }
        ensures progress { IfOk result (λ n. 0 < length piece.now → 0 < n) }
        ensures takes { IfOk result (λ n. taken self.new ≡ append_known (taken self.old) (take n piece.now)) }
        ensures failed_takes_nothing { OnErr result (taken self.new ≡ taken self.old) }
        ensures failed { OnErr result (Rose (faults self.old) (faults self.new)) }

        ensures faults_kept { faults self.old ≤ faults self.new }
        ensures counted { writes self.new ≡ raised (writes self.old) 1 };
}
