//! Calls that fail by their number.

ghost use Rattle.std.specs.Prelude.{◌≡◌};
ghost use Rattle.edge_io.specs.Script.{next_fails, called};

use crate::counts::raise;
use seen_list::List;

/// Which calls fail, by their numbers from 1 on, and how many were made.
#[derive(Drop)]
pub struct Script {
    fails: List<u64>,
    calls: u64,
}

impl Script {
    pub(crate) fn new(fails: List<u64>) -> Script
        ensures fails { result.fails ≡ fails }
        ensures calls { result.calls ≡ 0 }
    {
        Script { fails, calls: 0 }
    }

    /// Counts a call, and answers whether it is one that fails.
    pub(crate) fn call(&mut self) -> bool
        ensures answer { result ≡ next_fails self.old }
        ensures after { self.new ≡ called self.old }
    {
        raise(&mut self.calls, 1);
        self.fails.as_slice().contains(&self.calls)
    }
}
