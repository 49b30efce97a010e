//! The machine on which large netlists run, and their timing.

ghost use Rattle.std.specs.Prelude.{◌≡◌};
ghost use Rattle.machine_text.specs.Machines.{IsValid};
ghost use Rattle.net_defs.specs.Valid.{IsValidTiming};
ghost use Rattle.large_run.specs.Setting.{large_machine as machine_is, large_timing as timing_is};

use limits::{DEFAULT_FUNCTIONS, LARGE_LOGIC, MAX_NODES, MAX_SLOTS};
use machine_text::Machine;
use net_defs::{Init, Mode, Timing};
use seen_list::List;
use std::alloc::Global;

/// Logic processors alone.
pub(crate) fn large_machine(alloc: Global) -> Machine
    ensures is { result ≡ machine_is }
    ensures valid { IsValid result }
{
    Machine {
        logic: LARGE_LOGIC,
        array: 0,
        slots: MAX_SLOTS,
        functions: DEFAULT_FUNCTIONS,
        bits: 1,
        nodes: MAX_NODES,
        own: List::new(alloc),
    }
}

/// Rank order, where registers hold 0 at first.
pub(crate) fn large_timing(alloc: Global) -> Timing
    ensures is { result ≡ timing_is }
    ensures valid { IsValidTiming result }
{
    Timing::unlisted(alloc, Mode::Rank, 1, Init::Zero)
}
