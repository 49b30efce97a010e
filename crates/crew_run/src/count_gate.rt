//! A gate that only counts.

ghost use Rattle.std.specs.Prelude.{replicate, slice_index, ◌<◌, ◌≡◌};
ghost use Rattle.limits.specs.declared.TheConstants.{MAX_PORTS};

use crate::gate::Gate;
use limits::MAX_PORTS;

/// The ports that a gate counts.
const PORTS: usize = MAX_PORTS as usize;

/// A gate that only counts.
#[derive(Drop)]
pub struct CountGate {
    times: [u64; PORTS],
    latest: [u64; PORTS],
}

impl Gate for CountGate {
    ghost times = { λ g. g.times };

    ghost latest = { λ g. g.latest };

    fn at(&mut self, port: u32, turn: u64) {
        let p = port as usize;
        self.times[p] += 1;
        self.latest[p] = turn;
    }
}

impl CountGate {
    /// A gate that was told nothing.
    pub fn new() -> CountGate
        ensures times { ⟦<CountGate as Gate>⟧.times result ≡ replicate MAX_PORTS 0 }
        ensures latest { ⟦<CountGate as Gate>⟧.latest result ≡ replicate MAX_PORTS 0 }
    {
        CountGate {
            times: [0; PORTS],
            latest: [0; PORTS],
        }
    }

    /// How often a turn of the port was told.
    pub fn times(&self, port: u32) -> u64
        requires { port < MAX_PORTS }
        ensures { result ≡ slice_index (⟦<CountGate as Gate>⟧.times self.now) port }
    {
        self.times[port as usize]
    }

    /// The turn of the port that was told last, 0 where none was.
    pub fn latest(&self, port: u32) -> u64
        requires { port < MAX_PORTS }
        ensures { result ≡ slice_index (⟦<CountGate as Gate>⟧.latest self.now) port }
    {
        self.latest[port as usize]
    }
}
