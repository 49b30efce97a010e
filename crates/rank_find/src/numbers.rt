//! The rank of each signal, along an order.

ghost use Rattle.std.specs.Prelude.{◌≡◌, ℕ, ◌+◌, ◌^◌, ◌<◌, ◌≤◌, length, replicate, slice_index, IfOk};
ghost use Rattle.net_defs.specs.Loops.{waits_for, IsOrder, IsRanking, rank_past, rank_above};
ghost use Rattle.net_defs.specs.Valid.{IsValidTiming};

use net_defs::{Netlist, Timing, is_gate, waits_for};
use seen_list::{List, Memory};
use std::alloc::Global;

/// The rank of each signal, where the order is of this netlist.
pub(crate) fn rank_numbers(
    alloc: Global,
    net: &Netlist,
    timing: &Timing,
    order: &[u32],
) -> Result<List<u32>, Memory>
    requires order { IsOrder net.now timing.now order.now }
    requires short { length order.now < 2 ^ 32 }
    requires timing { IsValidTiming timing.now }
    ensures { IfOk result (IsRanking net.now timing.now) }
{
    let mut rank = zeros(alloc, net)?;
    for gate in order {
        let number = rank_above(net, rank.as_slice(), waits_for(net, timing, *gate));
        rank.set(*gate as usize, number);
    }
    Ok(rank)
}

fn zeros(alloc: Global, net: &Netlist) -> Result<List<u32>, Memory>
    ensures { IfOk result (λ rank. rank ≡ replicate (length net.now.signals) 0) }
{
    let mut rank = List::new(alloc);
    for _signal in net.signals.as_slice() {
        rank.push(0)?;
    }
    Ok(rank)
}

/// One more than the greatest rank of the gates among these signals, and 0 where there is none.
fn rank_above(net: &Netlist, rank: &[u32], signals: &[u32]) -> u32
    requires { (s : ℕ) → slice_index rank.now s + 1 < 2 ^ 32 }
    ensures { result ≡ rank_above net.now rank.now signals.now }
{
    let mut greatest = 0;
    for signal in signals {
        greatest = greatest.max(rank_past(net, rank, *signal));
    }
    greatest
}

fn rank_past(net: &Netlist, rank: &[u32], signal: u32) -> u32
    requires { (s : ℕ) → slice_index rank.now s + 1 < 2 ^ 32 }
    ensures { result ≡ rank_past net.now rank.now signal }
{
    if is_gate(net, signal) {
        number(rank, signal) + 1
    } else {
        0
    }
}

fn number(rank: &[u32], signal: u32) -> u32
    ensures { result ≡ slice_index rank.now signal }
{
    match rank.get(signal as usize) {
        Some(number) => *number,
        None => 0,
    }
}
