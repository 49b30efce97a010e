//! The reference simulation: the printed values of each cycle of a netlist under a stimulus, in rank
//! order, in unit delay or in mixed mode.
//!
//! ```
//! let rows = refer(alloc, &net, &timing, &stim)?; // c17 under 11111, 00000 and xxxxx: 10, 00 and xx
//! ```
#![tactic(auto)]

ghost use Rattle.std.specs.Prelude.{◌≡◌, ◌≢◌, List as Items, ℕ, IfOk, IfErr, OnOk};
ghost use Rattle.net_defs.specs.declared.{netlist.Netlist.Netlist, timing.Timing.Timing, stimulus.Stimulus.Stimulus};
ghost use Rattle.net_defs.specs.{Loops.IsCircle, Loops.IsLoop, Valid.IsValid, Valid.IsValidTiming, Reference.HasOneSimulation};
ghost use Rattle.net_defs.specs.declared.timing.Mode.TheVariants as mode;
ghost use Rattle.rank_find.specs.Refusal.{IfLoop};
ghost use Rattle.ref_sim.specs.Runs.{AreRowsOf};

mod observer;
mod run;
mod trace_rows;

use net_defs::{Netlist, Rows, Stimulus, Timing};
pub use observer::Observer;
use rank_find::order;
/// Why there is no simulation: the gates of a loop, or want of memory.
pub use rank_find::RankNo as RefNo;
pub use run::{observe, observe_lanes, refer_in_order};
use seen_list::Memory;
use std::alloc::Global;

/// The printed values of each cycle of the reference simulation: those that the signals have at the
/// cycle's last turn.
pub fn refer(alloc: Global, net: &Netlist, timing: &Timing, stim: &Stimulus) -> Result<Rows, RefNo>
    requires valid { IsValid net.now }
    requires timing { IsValidTiming timing.now }
    ensures rows { IfOk result (AreRowsOf net.now timing.now stim.now) }
    ensures simulated { OnOk result (HasOneSimulation net.now timing.now stim.now) }

    // A loop is answered exactly where there is one; in unit delay there is none.
    ensures acyclic { OnOk result ((members : Items ℕ) → IsCircle net.now timing.now members → ⊥) }
    ensures looped { IfErr result (λ no. IfLoop no (IsLoop net.now timing.now)) }
    ensures not_in_unit_delay { IfErr result (λ no. IfLoop no (λ _. timing.now.mode ≢ mode.Unit)) }
{
    let gates = order(alloc, net, timing)?;
    match refer_in_order(alloc, net, timing, stim, gates) {
        Ok(rows) => Ok(rows),
        Err(Memory) => Err(RefNo::Memory),
    }
}

/// A law: where there is no loop, as in unit delay at any time, a netlist has exactly one simulation
/// under each stimulus. It does nothing.
pub fn one_simulation()
    ensures unit_delay { (net : Netlist) (timing : Timing) (stimulus : Stimulus)
        → timing.mode ≡ mode.Unit → HasOneSimulation net timing stimulus }
    ensures without_loop { (net : Netlist) (timing : Timing) (stimulus : Stimulus)
        → ((members : Items ℕ) → IsCircle net timing members → ⊥) → HasOneSimulation net timing stimulus }
{}
