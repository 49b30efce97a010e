//! What drives a signal, and the ranks that its nodes have.

ghost use Rattle.std.specs.Prelude.{◌≡◌, ◌+◌, ◌^◌, ◌<◌, ◌≤◌, ℕ, [], length, map, slice_index, OnOk};
ghost use Rattle.limits.specs.declared.TheConstants.{MAX_GATE_OPERANDS};
ghost use Rattle.node_defs.specs.Groups.{groups};
ghost use Rattle.node_map.specs.code.Wires.{operands_of, helpers_at, class_at, past_of, most_of, pasts_to, pasts_of};

use net_defs::{Driver, Netlist};
use node_defs::{Group, group_at, helper_count};
use seen_list::Memory;

/// The operands of the gate that drives a signal. Of all else there are none.
pub(crate) fn operands(net: &Netlist, signal: u32) -> &[u32]
    ensures { result.now ≡ operands_of net.now signal }
{
    match net.signals.get(signal as usize) {
        Some(found) => {
            match &found.driver {
                Driver::Gate { ops, .. } => ops.as_slice(),
                Driver::Input | Driver::Dff { .. } | Driver::BlockBit { .. } => &[],
            }
        }
        None => &[],
    }
}

/// The class of the items of a signal, by which they are ordered first.
pub(crate) fn class(net: &Netlist, signal: u32) -> u32
    ensures { result ≡ class_at net.now signal }
{
    match net.signals.get(signal as usize) {
        Some(found) => {
            match found.driver {
                Driver::Input => 0,
                Driver::BlockBit { .. } => 1,
                Driver::Gate { .. } | Driver::Dff { .. } => 2,
            }
        }
        None => 0,
    }
}

/// The number of helpers of what drives a signal.
pub(crate) fn helpers(net: &Netlist, signal: u32) -> u32
    requires { length (operands_of net.now signal) ≤ MAX_GATE_OPERANDS }
    ensures { result ≡ helpers_at net.now signal }
{
    helper_count(operands(net, signal).len() as u32)
}

/// The number in a place of the list, and 0 past its end.
pub(crate) fn number(numbers: &[u32], place: usize) -> u32
    ensures { result ≡ slice_index numbers.now place }
{
    match numbers.get(place) {
        Some(number) => *number,
        None => 0,
    }
}

/// The least rank of what takes this operand.
fn past(net: &Netlist, own: &[u32], late: bool, operand: u32) -> u32
    requires { (s : ℕ) → slice_index own.now s + 1 < 2 ^ 32 }
    ensures { result ≡ past_of net.now own.now late operand }
{
    if late {
        0
    } else if class(net, operand) == 2 {
        number(own, operand as usize) + 1
    } else {
        0
    }
}

/// The greatest of the numbers of a group.
fn most(numbers: &[u32], group: Group) -> u32
    requires { group.first + group.size ≤ length numbers.now }
    ensures { result ≡ most_of numbers.now group.first group.size }
{
    let mut greatest = 0;
    'wires: for i in 0..group.size {
        greatest = greatest.max(numbers[group.first as usize + i as usize]);
    }
    greatest
}

/// Puts the least ranks of what takes the operands into the list.
fn fill_operands(
    pasts: &mut Vec<u32>,
    net: &Netlist,
    own: &[u32],
    late: bool,
    ops: &[u32],
) -> Result<(), Memory>
    requires { (s : ℕ) → slice_index own.now s + 1 < 2 ^ 32 }
    ensures { OnOk result (pasts.new.items ≡ map (past_of net.now own.now late) ops.now) }
{
    pasts.clear();
    'operands: for operand in ops {
        pasts.push(past(net, own, late, *operand))?;
    }
    Ok(())
}

/// Puts the least ranks of what takes each wire of a gate into the list, and last that of what takes
/// its own node. The list's room is used again.
pub(crate) fn fill_pasts(
    pasts: &mut Vec<u32>,
    net: &Netlist,
    own: &[u32],
    late: bool,
    ops: &[u32],
) -> Result<(), Memory>
    requires few { length ops.now ≤ MAX_GATE_OPERANDS }
    requires low { (s : ℕ) → slice_index own.now s + 2052 < 2 ^ 32 }
    ensures { OnOk result (pasts.new.items ≡ pasts_of net.now own.now late ops.now) }
{
    fill_operands(pasts, net, own, late, ops)?;
    let count = ops.len() as u32;
    'places: for place in 0..helper_count(count) + 1 {
        let rank = most(pasts.as_slice(), group_at(count, place));
        pasts.push(rank + 1)?;
    }
    Ok(())
}
