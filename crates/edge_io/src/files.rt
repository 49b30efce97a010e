//! A store of files.

ghost use Rattle.std.specs.Prelude.{◌≡◌, ℕ, Option, ◌≤◌, List, Bool, length, IfOk, OnOk, IsErr, is_err};
ghost use Rattle.edge_io.specs.FileCounts.{CountsFaults, CountsStart, CountsRead, bytes_given};
ghost use Rattle.edge_io.specs.{declared.counts.FileCounts.FileCounts, Names.is_absent, Names.IsAbsent, Names.OfTold, Reading.Gives};

use crate::Failed;

/// A store of files that are read one after another.
///
/// A store may tell three things: the names that are there, the bytes of each name, and what is
/// left of the file begun last. No call changes the names and their bytes. Nothing is left before
/// the first `start`.
///
/// Its counts stand still at the last value of a `u64`, and none of them ever falls.
pub trait Files {
    // which names are there, where that is told
    ghost names: { Self → Option (List ℕ → Bool) };

    // the bytes of each name, where they are told
    ghost bytes: { Self → Option (List ℕ → List ℕ) };

    // what is left of the file begun last, where that is told
    ghost left: { Self → Option (List ℕ) };

    // the calls so far, and what came of them
    ghost counts: { Self → FileCounts };

    /// Begins the named file, and ends the one before.
    fn start(&mut self, name: &[u8]) -> Result<(), Failed>
        ensures same_names { names self.new ≡ names self.old }
        ensures same_bytes { bytes self.new ≡ bytes self.old }

        ensures begins { OnOk result (OfTold (bytes self.old) name.now (λ whole. left self.new ≡ Some whole)) }
        ensures absent { IsAbsent (names self.old) name.now → IsErr result }

        ensures faults { CountsFaults (is_err result) (counts self.old) (counts self.new) }
        ensures counted { CountsStart (is_absent (names self.old) name.now) (counts self.old) (counts self.new) };

    /// Gives the next bytes of the file begun last, at most as many as `buf` is long, at the front
    /// of `buf`. 0 into a buffer that isn't empty is the end of the file. After `Failed` the file
    /// is in no stated place.
    fn read(&mut self, buf: &mut [u8]) -> Result<usize, Failed>
        ensures same_names { names self.new ≡ names self.old }
        ensures same_bytes { bytes self.new ≡ bytes self.old }

        ensures bound { IfOk result (λ n. n ≤ length buf.new) }
        ensures gives { IfOk result (λ n. Gives (left self.old) (left self.new) n buf.new) }

        ensures faults { CountsFaults (is_err result) (counts self.old) (counts self.new) }
        ensures counted { CountsRead (bytes_given result) (counts self.old) (counts self.new) };
}
