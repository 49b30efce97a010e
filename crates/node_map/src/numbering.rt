//! The numbers of items by what they stand for.

ghost use Rattle.std.specs.Prelude.{◌≡◌, ◌+◌, ◌^◌, ◌<◌, ◌≤◌, ℕ, [], length, map, replicate, slice_index, OnOk, IfOk};
ghost use Rattle.std.specs.List.{range_with_len};
ghost use Rattle.limits.specs.declared.TheConstants.{MAX_SIGNALS, MAX_GATE_OPERANDS};
ghost use Rattle.net_defs.specs.declared.netlist.Netlist.{Netlist as Net};
ghost use Rattle.node_defs.specs.Items.{own, helper_of, IsNamed};
ghost use Rattle.node_map.specs.code.Places.{start_of, name_of, flat_in, AreKeyed, AreFlat, AreNumbers, IsNumbering};
ghost use Rattle.node_map.specs.code.Wires.{operands_of, helpers_at};

use crate::keys::Key;
use crate::wires::{helpers, number};
use net_defs::Netlist;
use node_defs::ItemName;
use seen_list::{List, Memory};
use std::alloc::Global;

/// The names of the items, and their numbers by signal and place.
#[derive(Drop)]
pub(crate) struct Numbering {
    pub names: List<ItemName>,
    /// Where the numbers of the items of each signal begin, and last where they end.
    pub starts: List<u32>,
    pub numbers: List<u32>,
}

impl Numbering {
    /// The names alone.
    pub(crate) fn into_names(self) -> List<ItemName>
        ensures { result ≡ self.names }
    {
        self.names
    }

    /// The number of the item that stands for a signal: the last of its items.
    pub(crate) fn own_item(&self, signal: u32) -> u32
        ensures { (net : Net) → IsNumbering net self.now → signal < length net.signals → IsNamed self.now.names result (own signal) }
    {
        let end = number(self.starts.as_slice(), signal as usize + 1);
        number(self.numbers.as_slice(), end.saturating_sub(1) as usize)
    }

    /// The number of the item of a helper.
    pub(crate) fn helper_item(&self, signal: u32, helper: u32) -> u32
        ensures { (net : Net) → IsNumbering net self.now → signal < length net.signals → helper < helpers_at net signal
            → IsNamed self.now.names result (helper_of signal helper) }
    {
        let start = number(self.starts.as_slice(), signal as usize);
        number(self.numbers.as_slice(), start as usize + helper as usize)
    }
}

/// Where the items of each signal begin, and last where they end.
fn starts(alloc: Global, net: &Netlist) -> Result<List<u32>, Memory>
    requires few { length net.now.signals ≤ MAX_SIGNALS }
    requires narrow { (s : ℕ) → length (operands_of net.now s) ≤ MAX_GATE_OPERANDS }
    ensures { IfOk result (λ starts. starts ≡ map (start_of net.now) (range_with_len 0 (length net.now.signals + 1))) }
{
    let mut starts = List::new(alloc);
    let mut next = 0;
    'signals: for signal in 0..net.signals.len() as u32 {
        starts.push(next)?;
        next += helpers(net, signal) + 1;
    }
    starts.push(next)?;
    Ok(starts)
}

fn name(net: &Netlist, key: &Key) -> ItemName
    requires { (s : ℕ) → length (operands_of net.now s) ≤ MAX_GATE_OPERANDS }
    ensures { result ≡ name_of net.now key.now }
{
    let helper = if key.place < helpers(net, key.signal) {
        Some(key.place)
    } else {
        None
    };
    ItemName {
        signal: key.signal,
        helper,
    }
}

fn names(alloc: Global, net: &Netlist, keys: &[Key]) -> Result<List<ItemName>, Memory>
    requires { (s : ℕ) → length (operands_of net.now s) ≤ MAX_GATE_OPERANDS }
    ensures { IfOk result (λ names. names ≡ map (name_of net.now) keys.now) }
{
    let mut names = List::new(alloc);
    'keys: for key in keys {
        names.push(name(net, key))?;
    }
    Ok(names)
}

fn zeros(alloc: Global, count: usize) -> Result<List<u32>, Memory>
    ensures { IfOk result (λ numbers. numbers ≡ replicate count 0) }
{
    let mut numbers = List::new(alloc);
    'places: for _place in 0..count {
        numbers.push(0)?;
    }
    Ok(numbers)
}

fn place_of(starts: &[u32], key: &Key) -> usize
    ensures { result ≡ flat_in starts.now key.now }
{
    number(starts, key.signal as usize) as usize + key.place as usize
}

/// The place in its list of each key, by where the items of each signal begin.
fn numbers(alloc: Global, starts: &[u32], keys: &[Key]) -> Result<List<u32>, Memory>
    requires few { length keys.now < 2 ^ 32 }
    requires flat { AreFlat starts.now keys.now }
    ensures { IfOk result (AreNumbers starts.now keys.now) }
{
    let mut numbers = zeros(alloc, keys.len())?;
    'keys: for (x, key) in keys.iter().enumerate() {
        let place = place_of(starts, key);
        numbers.set(place, x as u32);
    }
    Ok(numbers)
}

/// The names and the numbers of the items that have these keys.
pub(crate) fn number_items(alloc: Global, net: &Netlist, keys: &[Key]) -> Result<Numbering, Memory>
    requires few { length net.now.signals ≤ MAX_SIGNALS }
    requires narrow { (s : ℕ) → length (operands_of net.now s) ≤ MAX_GATE_OPERANDS }
    requires keyed { AreKeyed net.now keys.now }
    ensures numbered { IfOk result (IsNumbering net.now) }
    ensures named { IfOk result (λ numbering. numbering.names ≡ map (name_of net.now) keys.now) }
{
    let starts = starts(alloc, net)?;
    let names = names(alloc, net, keys)?;
    let numbers = numbers(alloc, starts.as_slice(), keys)?;
    Ok(Numbering {
        names,
        starts,
        numbers,
    })
}
