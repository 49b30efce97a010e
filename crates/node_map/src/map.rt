//! From a netlist to its items.

ghost use Rattle.std.specs.Prelude.{ℕ, List as Items, IfOk};
ghost use Rattle.net_defs.specs.{declared.stimulus.Stimulus.Stimulus, Steps.State, Valid.IsValid, Valid.IsValidTiming, Loops.AreRanks, Loops.IsOrder};
ghost use Rattle.node_defs.specs.{Order.IsMapped, Values.AreItemValues, Values.AreReferenceValues};
ghost use Rattle.node_map.specs.code.{Places.AreKeyed, Places.AreRight, Wires.AreOwnRanks};

use crate::items::{find_references, first_node, make_items};
use crate::keys::{Key, sorted_keys};
use crate::numbering::number_items;
use crate::ranks::own_ranks;
use net_defs::{Netlist, Ranks, Timing};
use node_defs::NodeNet;
use node_defs::law::values_are_reference;
use seen_list::Memory;
use std::alloc::Global;

/// The keys of all items in the order of the items, by the ranks along an order of the gates.
fn ranked_keys(
    alloc: Global,
    net: &Netlist,
    timing: &Timing,
    order: &[u32],
) -> Result<Vec<Key>, Memory>
    requires valid { IsValid net.now }
    requires timing { IsValidTiming timing.now }
    requires order { IsOrder net.now timing.now order.now }
    ensures keyed { IfOk result (λ keys. AreKeyed net.now keys.items) }
    ensures ranked { IfOk result (λ keys. (own : Items ℕ) × AreOwnRanks net.now timing.now own × AreRight net.now timing.now own keys.items) }
{
    let own = own_ranks(alloc, net, timing, order)?;
    sorted_keys(alloc, net, timing, own.as_slice())
}

/// The items that have these keys, with all that is told of them.
fn nodes_of(alloc: Global, net: &Netlist, timing: &Timing, keys: &[Key]) -> Result<NodeNet, Memory>
    requires valid { IsValid net.now }
    requires timing { IsValidTiming timing.now }
    requires keyed { AreKeyed net.now keys.now }
    requires ranked { (own : Items ℕ) × AreOwnRanks net.now timing.now own × AreRight net.now timing.now own keys.now }
    ensures { IfOk result (IsMapped net.now timing.now) }
{
    let numbering = number_items(alloc, net, keys)?;
    let made = make_items(alloc, net, timing, &numbering, keys)?;
    let references = find_references(alloc, net, &numbering)?;
    Ok(NodeNet {
        items: made.items,
        names: numbering.into_names(),
        tables: made.tables,
        printed: references.printed,
        blocks: references.blocks,
        first_node: first_node(keys),
    })
}

/// The items of a netlist in their order: inputs, memory outputs, and then nodes and registers, sorted
/// by rank, signal and helper. Tables that are equal share a number, and are numbered in the order in which
/// the items first use them.
pub fn map_nodes(
    alloc: Global,
    net: &Netlist,
    ranks: &Ranks,
    timing: &Timing,
) -> Result<NodeNet, Memory>
    requires valid { IsValid net.now }
    requires timing { IsValidTiming timing.now }
    requires ranked { AreRanks net.now timing.now ranks.now }
    ensures items { IfOk result (IsMapped net.now timing.now) }
    ensures values { IfOk result (λ nodes. (stimulus : Stimulus) (values : Items State)
        → AreItemValues nodes timing.now stimulus values → AreReferenceValues net.now timing.now stimulus nodes values) }
{
    let keys = ranked_keys(alloc, net, timing, ranks.order.as_slice())?;
    let nodes = nodes_of(alloc, net, timing, keys.as_slice())?;
    values_are_reference();
    Ok(nodes)
}
