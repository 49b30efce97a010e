//! The homes of items, or why there are none.

ghost use Rattle.std.specs.Prelude.{◌≡◌, ◌+◌, ◌-◌, ◌<◌, ◌≤◌, ◌++◌, ◌∷◌, [], IfOk, IfErr, OnOk, length, Some, slice_get};
ghost use Rattle.machine_text.specs.{Machines.IsValid, declared.machine.Limited.TheVariants.Nodes as NodesOf};
ghost use Rattle.node_defs.specs.WellFormed.{IsWellFormed};
ghost use Rattle.plan_defs.specs.Picks.{AreHoused, ArePicked, HasPickedHome, node_count, node_room};
ghost use Rattle.plan_defs.specs.Homes.{AreHomes};
ghost use Rattle.home_pick.specs.code.Rooms.{AreFilled, AreItemPorts, AreTurned, homes_at, limits_of as limits_at};
ghost use Rattle.home_pick.specs.Refusals.{IsRight};

use crate::blocks::{Filling, block_bits, empty, first_with_room, most_left};
use crate::loads;
use crate::ports::{limits_of, total};
use crate::turns::{Turns, begin};
use machine_text::{Limited, Machine};
use node_defs::{Item, NodeNet};
use plan_defs::Homes;
use seen_list::{List, Memory};
use std::alloc::Global;

/// Why there are no homes.
#[derive(Clone, Copy)]
pub enum HomeNo {
    /// This memory is the first that finds no array port with room for its bits. So many bits are
    /// left on the array port that has the most, 0 without one.
    Bits { block: u32, needed: u32, left: u32 },
    /// There was not enough memory to pick homes.
    Memory,
    /// Each memory has a port, and there are more nodes than all logic ports hold together.
    Nodes { needed: u32, limit: u32 },
}

impl From<Memory> for HomeNo {
    ghost use Rattle.std.specs.Prelude.{◌≡◌};
    ghost use Rattle.home_pick.specs.declared.pick.HomeNo.TheVariants.{Memory as NoMemory};

    ghost from_gives = { λ _ e. e ≡ NoMemory };

    fn from(_refused: Memory) -> HomeNo {
        HomeNo::Memory
    }
}

/// The homes of items on a machine: inputs at the host, memories in their order at the first array
/// port with room, and nodes and latches in turn over the logic ports: node number n at the first of
/// the ports n, n + 1 and so on, modulo their number, that isn't full.
pub fn homes(alloc: Global, nodes: &NodeNet, machine: &Machine) -> Result<Homes, HomeNo>
    requires nodes { IsWellFormed nodes.now }
    requires machine { IsValid machine.now }
    ensures picked { IfOk result (ArePicked nodes.now machine.now) }
    ensures homes { IfOk result (AreHomes nodes.now) }
    ensures refused { IfErr result (IsRight nodes.now machine.now) }
{
    let blocks = block_ports(alloc, nodes, machine)?;
    let limits = node_limits(alloc, nodes, machine, blocks.as_slice())?;
    let items = item_ports(alloc, nodes, machine, blocks.as_slice(), limits)?;
    Ok(Homes {
        logic: machine.logic,
        array: machine.array,
        items,
        blocks,
    })
}

/// The ports of the memories.
fn block_ports(alloc: Global, nodes: &NodeNet, machine: &Machine) -> Result<List<u32>, HomeNo>
    requires nodes { IsWellFormed nodes.now }
    requires machine { IsValid machine.now }
    ensures housed { IfOk result (λ ports. AreHoused nodes.now machine.now ports (length nodes.now.blocks)) }
    ensures refused { IfErr result (IsRight nodes.now machine.now) }
{
    let mut filling = empty(alloc, nodes, machine)?;
    'memories: for block in 0..nodes.blocks.len() {
        place(&mut filling, nodes, machine, block)?;
    }
    Ok(filling.ports)
}

/// Gives the next memory its port.
fn place(
    filling: &mut Filling,
    nodes: &NodeNet,
    machine: &Machine,
    block: usize,
) -> Result<(), HomeNo>
    requires nodes { IsWellFormed nodes.now }
    requires machine { IsValid machine.now }
    requires block { block < length nodes.now.blocks }
    requires before { AreFilled nodes.now machine.now block filling.old }
    ensures ok { OnOk result (AreFilled nodes.now machine.now (block + 1) filling.new) }
    ensures refused { IfErr result (IsRight nodes.now machine.now) }
{
    let needed = block_bits(&nodes.blocks.as_slice()[block]);
    match first_with_room(filling.left.as_slice(), needed) {
        Some(a) => {
            filling.put(nodes, machine, a, needed)?;
            Ok(())
        }
        None => Err(HomeNo::Bits {
            block: block as u32,
            needed,
            left: most_left(filling.left.as_slice()),
        }),
    }
}

/// The node limits of the logic ports, where these hold all nodes. The memories have their ports.
fn node_limits(
    alloc: Global,
    nodes: &NodeNet,
    machine: &Machine,
    blocks: &[u32],
) -> Result<List<u32>, HomeNo>
    requires nodes { IsWellFormed nodes.now }
    requires machine { IsValid machine.now }
    requires blocks { AreHoused nodes.now machine.now blocks.now (length nodes.now.blocks) }
    ensures limits { IfOk result (λ limits. limits ≡ limits_at machine.now NodesOf machine.now.logic) }
    ensures few { IfOk result (λ limits. node_count nodes.now ≤ node_room machine.now) }
    ensures refused { IfErr result (IsRight nodes.now machine.now) }
{
    let limits = limits_of(alloc, machine, Limited::Nodes, machine.logic)?;
    let needed = loads::node_count(nodes);
    let limit = total(limits.as_slice());
    if limit < needed {
        return Err(HomeNo::Nodes { needed, limit });
    }
    Ok(limits)
}

/// The ports of the items, where the logic ports hold all nodes.
fn item_ports(
    alloc: Global,
    nodes: &NodeNet,
    machine: &Machine,
    blocks: &[u32],
    limits: List<u32>,
) -> Result<List<u32>, Memory>
    requires nodes { IsWellFormed nodes.now }
    requires machine { IsValid machine.now }
    requires blocks { length blocks.now ≡ length nodes.now.blocks }
    requires limits { limits ≡ limits_at machine.now NodesOf machine.now.logic }
    requires few { node_count nodes.now ≤ node_room machine.now }
    ensures { IfOk result (AreItemPorts nodes.now machine.now blocks.now (length nodes.now.items)) }
{
    let mut turns = begin(alloc, nodes, machine, limits)?;
    give_ports(&mut turns, nodes, machine, blocks)?;
    Ok(turns.ports)
}

/// Gives each item its port, where the logic ports hold all nodes and none has a port yet.
fn give_ports(
    turns: &mut Turns,
    nodes: &NodeNet,
    machine: &Machine,
    blocks: &[u32],
) -> Result<(), Memory>
    requires nodes { IsWellFormed nodes.now }
    requires machine { IsValid machine.now }
    requires blocks { length blocks.now ≡ length nodes.now.blocks }
    requires few { node_count nodes.now ≤ node_room machine.now }
    requires ports { turns.old.ports ≡ [] }
    requires turned { AreTurned nodes.now machine.now [] 0 turns.old.left turns.old.skips }
    ensures { OnOk result (AreItemPorts nodes.now machine.now blocks.now (length nodes.now.items) turns.new.ports) }
{
    let items = nodes.items.as_slice();
    'items: for i in 0..items.len() {
        let port = item_port(turns, nodes, machine, blocks, &items[i], i as u32);
        turns.ports.push(port)?;
    }
    Ok(())
}

/// The port of the next item, given with its number.
fn item_port(
    turns: &mut Turns,
    nodes: &NodeNet,
    machine: &Machine,
    blocks: &[u32],
    item: &Item,
    i: u32,
) -> u32
    requires nodes { IsWellFormed nodes.now }
    requires machine { IsValid machine.now }
    requires blocks { length blocks.now ≡ length nodes.now.blocks }
    requires item { slice_get nodes.now.items i ≡ Some item.now }
    requires next { length turns.old.ports ≡ i }
    requires few { node_count nodes.now ≤ node_room machine.now }
    requires before { AreTurned nodes.now machine.now turns.old.ports (i - nodes.now.first_node) turns.old.left turns.old.skips }
    ensures ports { turns.new.ports ≡ turns.old.ports }
    ensures home { HasPickedHome nodes.now machine.now (homes_at machine.now blocks.now (turns.old.ports ++ result ∷ [])) i item.now }
    ensures turned { AreTurned nodes.now machine.now (turns.old.ports ++ result ∷ []) (i + 1 - nodes.now.first_node) turns.new.left turns.new.skips }
{
    match item {
        Item::Input { .. } => machine.logic + machine.array,
        Item::BlockBit { block, .. } => blocks[*block as usize],
        Item::Node { .. } | Item::Latch { .. } => {
            turns.turn_port(nodes, machine, i - nodes.first_node)
        }
    }
}
