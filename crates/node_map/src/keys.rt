//! Keys of items, in whose order they stand.

ghost use Rattle.std.specs.Prelude.{◌≡◌, ◌+◌, ◌-◌, ◌^◌, ◌<◌, ◌≤◌, ◌++◌, ℕ, [], length, map, slice_index, OnOk, IfOk};
ghost use Rattle.std.specs.List.{range_with_len, Sorted.IsPermutation, Sorted.IsSorted};
ghost use Rattle.limits.specs.declared.TheConstants.{MAX_SIGNALS, MAX_GATE_OPERANDS};
ghost use Rattle.net_defs.specs.{Steps.is_late, Valid.IsValidTiming};
ghost use Rattle.node_map.specs.code.Wires.{operands_of, helpers_at, class_at, pasts_of, AreOwnRanks};
ghost use Rattle.node_map.specs.code.Places.{key_at, keys_of, keys_to, key_cmp, key_from, AreKeyed, AreRight};

use crate::wires::{class, fill_pasts, number, operands};
use net_defs::{Netlist, Timing, is_late};
use node_defs::helper_count;
use seen_list::Memory;
use std::alloc::Global;

/// By what an item is ordered.
#[derive(Clone, Copy, PartialEq, Eq, PartialOrd, Ord)]
pub(crate) struct Key {
    pub class: u32,
    pub rank: u32,
    pub signal: u32,
    /// The number of a helper, or, for the signal's own item, the number of helpers.
    pub place: u32,
}

/// The key of the item at a place of a signal, by the least ranks of what takes each wire.
fn key_of(net: &Netlist, signal: u32, count: u32, pasts: &[u32], place: u32) -> Key
    requires { count + place < 2 ^ 32 }
    ensures { result ≡ key_from net.now signal count pasts.now place }
{
    Key {
        class: class(net, signal),
        rank: number(pasts, (count + place) as usize).saturating_sub(1),
        signal,
        place,
    }
}

/// Adds the keys of the items of a signal by place. The list `pasts` is used as scratch.
fn push_keys(
    keys: &mut Vec<Key>,
    pasts: &mut Vec<u32>,
    net: &Netlist,
    timing: &Timing,
    own: &[u32],
    signal: u32,
) -> Result<(), Memory>
    requires few { length (operands_of net.now signal) ≤ MAX_GATE_OPERANDS }
    requires timing { IsValidTiming timing.now }
    requires low { (s : ℕ) → slice_index own.now s + 2052 < 2 ^ 32 }
    ensures { OnOk result (keys.new.items ≡ keys.old.items ++ keys_of net.now timing.now own.now signal) }
{
    let ops = operands(net, signal);
    fill_pasts(pasts, net, own, is_late(net, timing, signal), ops)?;
    let count = ops.len() as u32;
    'places: for place in 0..helper_count(count) + 1 {
        keys.push(key_of(net, signal, count, pasts.as_slice(), place))?;
    }
    Ok(())
}

/// The keys of all items by signal and place.
fn all_keys(alloc: Global, net: &Netlist, timing: &Timing, own: &[u32]) -> Result<Vec<Key>, Memory>
    requires few { length net.now.signals ≤ MAX_SIGNALS }
    requires timing { IsValidTiming timing.now }
    requires narrow { (s : ℕ) → length (operands_of net.now s) ≤ MAX_GATE_OPERANDS }
    requires low { (s : ℕ) → slice_index own.now s + 2052 < 2 ^ 32 }
    ensures { IfOk result (λ keys. keys.items ≡ keys_to net.now timing.now own.now (length net.now.signals)) }
{
    let mut keys = Vec::new(alloc);
    let mut pasts = Vec::new(alloc);
    'signals: for signal in 0..net.signals.len() as u32 {
        push_keys(&mut keys, &mut pasts, net, timing, own, signal)?;
    }
    Ok(keys)
}

fn sort(keys: &mut Vec<Key>) -> Result<(), Memory>
    ensures moved { IsPermutation keys.old.items keys.new.items }
    ensures sorted { OnOk result (IsSorted key_cmp keys.new.items) }
{
    keys.sort()?;
    Ok(())
}

/// The keys of all items in the order of the items.
pub(crate) fn sorted_keys(
    alloc: Global,
    net: &Netlist,
    timing: &Timing,
    own: &[u32],
) -> Result<Vec<Key>, Memory>
    requires few { length net.now.signals ≤ MAX_SIGNALS }
    requires timing { IsValidTiming timing.now }
    requires narrow { (s : ℕ) → length (operands_of net.now s) ≤ MAX_GATE_OPERANDS }
    requires low { (s : ℕ) → slice_index own.now s + 2052 < 2 ^ 32 }
    ensures keyed { IfOk result (λ keys. AreKeyed net.now keys.items) }
    ensures right { IfOk result (λ keys. AreRight net.now timing.now own.now keys.items) }
{
    let mut keys = all_keys(alloc, net, timing, own)?;
    sort(&mut keys)?;
    Ok(keys)
}
