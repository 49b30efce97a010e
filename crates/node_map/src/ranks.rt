//! The rank of the own node of each signal, along an order.

ghost use Rattle.std.specs.Prelude.{◌≡◌, ◌+◌, ◌^◌, ◌<◌, ◌≤◌, ℕ, [], length, replicate, slice_index, IfOk};
ghost use Rattle.limits.specs.declared.TheConstants.{MAX_SIGNALS, MAX_GATE_OPERANDS};
ghost use Rattle.net_defs.specs.{Loops.IsOrder, Valid.IsValidTiming};
ghost use Rattle.node_map.specs.code.Wires.{operands_of, helpers_at, rank_at, AreOwnRanks};

use crate::wires::{fill_pasts, number, operands};
use net_defs::{Netlist, Timing, is_late};
use node_defs::helper_count;
use seen_list::{List, Memory};
use std::alloc::Global;

fn zeros(alloc: Global, net: &Netlist) -> Result<List<u32>, Memory>
    ensures { IfOk result (λ own. own ≡ replicate (length net.now.signals) 0) }
{
    let mut own = List::new(alloc);
    'signals: for _signal in net.signals.as_slice() {
        own.push(0)?;
    }
    Ok(own)
}

/// The rank of the own node of a gate, where its operands have these. The list is used as scratch.
fn own_rank(
    pasts: &mut Vec<u32>,
    net: &Netlist,
    timing: &Timing,
    own: &[u32],
    gate: u32,
) -> Result<u32, Memory>
    requires few { length (operands_of net.now gate) ≤ MAX_GATE_OPERANDS }
    requires timing { IsValidTiming timing.now }
    requires low { (s : ℕ) → slice_index own.now s + 2052 < 2 ^ 32 }
    ensures { IfOk result (λ rank. rank ≡ rank_at net.now timing.now own.now gate (helpers_at net.now gate)) }
{
    let ops = operands(net, gate);
    fill_pasts(pasts, net, own, is_late(net, timing, gate), ops)?;
    let count = ops.len() as u32;
    let past = number(pasts.as_slice(), (count + helper_count(count)) as usize);
    Ok(past.saturating_sub(1))
}

/// The rank of the own item of each signal.
pub(crate) fn own_ranks(
    alloc: Global,
    net: &Netlist,
    timing: &Timing,
    order: &[u32],
) -> Result<List<u32>, Memory>
    requires narrow { (s : ℕ) → length (operands_of net.now s) ≤ MAX_GATE_OPERANDS }
    requires timing { IsValidTiming timing.now }
    requires order { IsOrder net.now timing.now order.now }
    requires short { length order.now ≤ MAX_SIGNALS }
    ensures ranks { IfOk result (AreOwnRanks net.now timing.now) }
    ensures low { IfOk result (λ own. (s : ℕ) → slice_index own s + 2052 < 2 ^ 32) }
{
    let mut own = zeros(alloc, net)?;
    let mut pasts = Vec::new(alloc);
    'gates: for gate in order {
        let rank = own_rank(&mut pasts, net, timing, own.as_slice(), *gate)?;
        own.set(*gate as usize, rank);
    }
    Ok(own)
}
