//! How a netlist is run in time.

ghost use Rattle.std.specs.Prelude.{◌≡◌, ◌≤◌, []};
ghost use Rattle.limits.specs.declared.TheConstants.{MAX_UNITS};
ghost use Rattle.net_defs.specs.declared.timing.Mode.TheVariants as modes;
ghost use Rattle.net_defs.specs.{Time.is_edge, Time.initial_value, Valid.IsValidTiming, Valid.Ascends};

use logic_four::V4;
use seen_list::List;
use std::alloc::Global;

/// Which values a gate reads.
#[derive(Clone, Copy, PartialEq, Eq)]
pub enum Mode {
    /// This turn's values, each gate after its operands.
    Rank,
    /// The last turn's values: each gate has one unit of delay.
    Unit,
    /// The last turn's values for the gates that are listed, and this turn's for the others.
    Mixed,
}

/// What registers and memories hold at first.
#[derive(Clone, Copy, PartialEq, Eq)]
pub enum Init {
    Undef,
    Zero,
}

/// The timing of a run.
#[derive(Drop)]
pub struct Timing {
    pub mode: Mode,
    /// The turns of a cycle: 1 in rank order, 1 to 4,096 in unit delay and in mixed mode (this
    /// project's profile).
    pub units: u32,
    pub init: Init,
    /// The numbers of the gates that are late in mixed mode, from the least on. No other mode asks it,
    /// and the number of what is no gate changes nothing.
    pub listed: List<u32>,
}

impl Timing {
    /// The timing that lists no gate. It takes no memory.
    pub fn unlisted(alloc: Global, mode: Mode, units: u32, init: Init) -> Timing
        ensures is { result ≡ record { mode = mode; units = units; init = init; listed = [] } }
        ensures valid { 1 ≤ units → units ≤ MAX_UNITS → (mode ≡ modes.Rank → units ≡ 1) → IsValidTiming result }
    {
        Timing {
            mode,
            units,
            init,
            listed: List::new(alloc),
        }
    }

    /// The same timing with these gates listed.
    pub fn listing(&self, listed: List<u32>) -> Timing
        ensures is { result ≡ record self.now { listed = listed } }
        ensures valid { IsValidTiming self.now → Ascends listed → IsValidTiming result }
    {
        Timing {
            mode: self.mode,
            units: self.units,
            init: self.init,
            listed,
        }
    }
}

/// What registers and memories hold at first.
pub fn initial_value(init: Init) -> V4
    ensures { result ≡ initial_value init }
{
    match init {
        Init::Undef => V4::Undef,
        Init::Zero => V4::Zero,
    }
}

/// Whether registers and memories take new values in a turn, counted from 1: in the first turn of each
/// cycle but the first, where a cycle has `units` turns.
pub fn is_edge(units: u32, turn: u32) -> bool
    requires { 1 ≤ units }
    ensures { result ≡ is_edge units turn }
{
    2 <= turn && (turn - 1) % units == 0
}
