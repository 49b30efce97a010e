//! An order of the gates of a netlist in which each comes after the gates that it waits for, with
//! the rank of each gate; or a loop of gates that wait for one another.
//!
//! ```
//! // c = NOT(d), d = NOT(e) and e = AND(a, b): signals 2, 3 and 4, behind the inputs.
//! let ranks = rank(alloc, &net, &timing)?; // the order 4, 3, 2 and the ranks 0, 0, 2, 1, 0; or RankNo::Loop
//! ```
#![tactic(auto)]

ghost use Rattle.std.specs.Prelude.{◌≡◌, ◌≢◌, ◌<◌, ◌≤◌, ◌^◌, List as Items, ℕ, length, IfOk, IfErr, OnOk};
ghost use Rattle.net_defs.specs.Loops.{IsOrder, IsCircle, IsLoop, AreRanks, OrderOrLoop};
ghost use Rattle.net_defs.specs.{declared.netlist.Netlist.Netlist, declared.timing.Timing.Timing, Valid.IsValidTiming};
ghost use Rattle.net_defs.specs.declared.timing.Mode.TheVariants as mode;
ghost use Rattle.rank_find.specs.{Refusal.IfLoop, code.Found.IsFound};

mod circle;
mod numbers;
mod walk;

use net_defs::{Netlist, Ranks, Timing};
use numbers::rank_numbers;
use seen_list::{List, Memory};
use std::alloc::Global;
use walk::Walk;

/// Why there are no ranks.
#[derive(Drop)]
pub enum RankNo {
    /// The gates of a loop: each is an operand of the next, and the last one of the first. It begins
    /// with the gate that stands first in signal order. Which loop is named is free.
    Loop(List<u32>),
    /// Want of memory.
    Memory,
}

/// An order of all gates, and the rank of each signal. A gate that is not late comes after the gates
/// among its operands, and there is no order where gates wait for one another in a loop; a late gate
/// waits for nothing, so in unit delay any order will do. It serves any netlist of fewer than 2^32 signals,
/// so each valid one; an operand that is no signal is waited for by nobody.
pub fn rank(alloc: Global, net: &Netlist, timing: &Timing) -> Result<Ranks, RankNo>
    requires few { length net.now.signals < 2 ^ 32 }
    requires timing { IsValidTiming timing.now }
    ensures ranks { IfOk result (AreRanks net.now timing.now) }

    // A loop is answered exactly where there is one; in unit delay there is none.
    ensures acyclic { OnOk result ((members : Items ℕ) → IsCircle net.now timing.now members → ⊥) }
    ensures looped { IfErr result (λ no. IfLoop no (IsLoop net.now timing.now)) }
    ensures not_in_unit_delay { IfErr result (λ no. IfLoop no (λ _. timing.now.mode ≢ mode.Unit)) }
{
    let order = order(alloc, net, timing)?;
    ranked(alloc, net, timing, order)
}

/// The order alone, of which `rank` says the rest. It is as long as the gates are many.
pub fn order(alloc: Global, net: &Netlist, timing: &Timing) -> Result<List<u32>, RankNo>
    requires few { length net.now.signals < 2 ^ 32 }
    requires timing { IsValidTiming timing.now }
    ensures order { IfOk result (IsOrder net.now timing.now) }
    ensures few { IfOk result (λ order. length order ≤ length net.now.signals) }

    // A loop is answered exactly where there is one; in unit delay there is none.
    ensures acyclic { OnOk result ((members : Items ℕ) → IsCircle net.now timing.now members → ⊥) }
    ensures looped { IfErr result (λ no. IfLoop no (IsLoop net.now timing.now)) }
    ensures not_in_unit_delay { IfErr result (λ no. IfLoop no (λ _. timing.now.mode ≢ mode.Unit)) }
{
    match find_order(alloc, net, timing) {
        Ok(Found::Order(order)) => Ok(order),
        Ok(Found::Loop(members)) => Err(RankNo::Loop(members)),
        Err(Memory) => Err(RankNo::Memory),
    }
}

/// What a walk over the whole netlist finds.
#[derive(Drop)]
enum Found {
    Order(List<u32>),
    Loop(List<u32>),
}

fn find_order(alloc: Global, net: &Netlist, timing: &Timing) -> Result<Found, Memory>
    requires few { length net.now.signals < 2 ^ 32 }
    requires timing { IsValidTiming timing.now }
    ensures { IfOk result (IsFound net.now timing.now) }
{
    let mut walk = Walk::new(alloc, net)?;
    match walk.run(alloc, net, timing)? {
        Some(members) => Ok(Found::Loop(members)),
        None => Ok(Found::Order(walk.order)),
    }
}

fn ranked(alloc: Global, net: &Netlist, timing: &Timing, order: List<u32>) -> Result<Ranks, RankNo>
    requires order { IsOrder net.now timing.now order }
    requires few { length order ≤ length net.now.signals }
    requires short { length net.now.signals < 2 ^ 32 }
    requires timing { IsValidTiming timing.now }
    ensures ranks { IfOk result (AreRanks net.now timing.now) }
    ensures memory { IfErr result (λ no. no ≡ RankNo.Memory) }
{
    match rank_numbers(alloc, net, timing, order.as_slice()) {
        Ok(rank) => Ok(Ranks { order, rank }),
        Err(Memory) => Err(RankNo::Memory),
    }
}

/// A law: every netlist has an order or a loop, and none has both. It does nothing.
pub fn order_or_loop()
    ensures one { (net : Netlist) (timing : Timing) → OrderOrLoop net timing }
    ensures never_both { (net : Netlist) (timing : Timing) (order members : Items ℕ)
        → IsOrder net timing order → IsCircle net timing members → ⊥ }
{}
