//! What a worker tells of the turns that begin.

ghost use Rattle.std.specs.Prelude.{List, length, slice_index, ℕ, if◌then◌else◌, ◌+◌, ◌<◌, ◌==◌, ◌^◌, ◌≡◌};
ghost use Rattle.limits.specs.declared.TheConstants.{MAX_PORTS};

/// What is told of each turn that begins.
///
/// Contracts see two numbers of each port below 256: how often a turn of the port was told, and which turn
/// was told last; a new `CountGate` has 0 of both.
pub trait Gate: Drop {
    ghost times: { Self → List ℕ };

    ghost latest: { Self → List ℕ };

    /// Tells that a turn of a port begins.
    fn at(&mut self, port: u32, turn: u64)
        requires port { port < MAX_PORTS }
        requires room { slice_index (times self.old) port < 2 ^ 63 }
        ensures times { (q : ℕ) → slice_index (times self.new) q ≡ slice_index (times self.old) q + (if q == port then 1 else 0) }
        ensures latest { (q : ℕ) → slice_index (latest self.new) q ≡ (if q == port then turn else slice_index (latest self.old) q) }
        ensures wide { (length (times self.new) ≡ MAX_PORTS) × (length (latest self.new) ≡ MAX_PORTS) };
}
