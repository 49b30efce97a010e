//! The state of runs side by side.

ghost use Rattle.std.specs.Prelude.{◌≡◌, length};
ghost use Rattle.net_ops.specs.Places.{place_count, row_of};

use array_cells::Cells;
use net_defs::Netlist;
use seen_list::List;

/// The values of all signals in this turn, then those in the last one, and for each lane that runs the words of
/// its memories.
#[derive(Drop)]
pub struct LaneState<W> {
    pub values: List<W>,
    pub memories: List<List<Cells>>,
}

impl<W> LaneState<W> {
    /// The values of this turn.
    pub fn row(&self, net: &Netlist) -> &[W]
        requires { length self.now.values ≡ place_count net.now }
        ensures { result.now ≡ row_of net.now self.now.values }
    {
        &self.values.as_slice()[..net.signals.len()]
    }
}
