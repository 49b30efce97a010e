//! The work of an array port.

ghost use Rattle.std.specs.Prelude.{◌≡◌, ◌<◌, ◌≤◌, ℕ, IfOk, Some, length, slice_get};
ghost use Rattle.plan_defs.specs.Homes.{host_of};
ghost use Rattle.image_defs.specs.Matches.{claims_of};
ghost use Rattle.node_defs.specs.{declared.items.Item.TheVariants.BlockBit, Takes.BlockTakes};
ghost use Rattle.image_build.specs.code.Layouts.{block_for, AreBlocks, AreBits, IsWorkFor};
ghost use Rattle.image_build.specs.{PortItems.ArePortItems, Built.ArePortMemories, Plans.IsPlanned};
ghost use Rattle.image_build.specs.code.Plans.{AreMemories, IsBitItem, IsBitAt};

use crate::memories::Memories;
use crate::sources::{source_of, sources_of};
use image_defs::{BlockWork, OutBit, Work};
use node_defs::{Item, NodeBlock, NodeNet};
use plan_defs::{Homes, Plan};
use seen_list::{List, Memory};
use std::alloc::Global;

/// The memories of an array port and its output bits.
pub(crate) fn array_work(
    alloc: Global,
    nodes: &NodeNet,
    homes: &Homes,
    plan: &Plan,
    memories: &Memories,
    port: u32,
    items: &[u32],
) -> Result<Work, Memory>
    requires planned { IsPlanned nodes.now homes.now plan.now }
    requires memories { AreMemories nodes.now homes.now memories.now }
    requires items { ArePortItems nodes.now homes.now plan.now.slots port items.now }
    requires array { (homes.now.logic ≤ port) × (port < host_of homes.now) }
    ensures { IfOk result (IsWorkFor nodes.now homes.now plan.now.slots port items.now) }
{
    let numbers = memories.lists.as_slice()[port as usize].as_slice();
    let blocks = blocks_of(alloc, nodes, homes, plan, port, numbers)?;
    let outs = bits_of(alloc, nodes, homes, plan, memories, port, items)?;
    Ok(Work::Array { blocks, outs })
}

/// The memories of these numbers.
fn blocks_of(
    alloc: Global,
    nodes: &NodeNet,
    homes: &Homes,
    plan: &Plan,
    port: u32,
    numbers: &[u32],
) -> Result<List<BlockWork>, Memory>
    requires planned { IsPlanned nodes.now homes.now plan.now }
    requires there { (k m : ℕ) → slice_get numbers.now k ≡ Some m → m < length nodes.now.blocks }
    ensures { IfOk result (AreBlocks nodes.now homes.now plan.now.slots port numbers.now) }
{
    let memories = nodes.blocks.as_slice();
    let mut blocks = List::new(alloc);
    'numbers: for k in 0..numbers.len() {
        blocks.push(block_of(alloc, homes, plan, port, &memories[numbers[k] as usize])?)?;
    }
    Ok(blocks)
}

/// A memory, by where the port takes its operands from.
fn block_of(
    alloc: Global,
    homes: &Homes,
    plan: &Plan,
    port: u32,
    memory: &NodeBlock,
) -> Result<BlockWork, Memory>
    requires as_long { length homes.now.items ≡ length plan.now.slots }
    requires taken { (o : ℕ) → BlockTakes memory.now o → o < length plan.now.slots }
    ensures { IfOk result (λ block. block ≡ block_for homes.now plan.now.slots port memory.now) }
{
    Ok(BlockWork {
        we: source_of(homes, plan, port, memory.we, true),
        address: sources_of(alloc, homes, plan, port, memory.address.as_slice(), true)?,
        word: sources_of(alloc, homes, plan, port, memory.word.as_slice(), true)?,
    })
}

/// The output bits of these items, by the places of their memories.
fn bits_of(
    alloc: Global,
    nodes: &NodeNet,
    homes: &Homes,
    plan: &Plan,
    memories: &Memories,
    port: u32,
    items: &[u32],
) -> Result<List<OutBit>, Memory>
    requires planned { IsPlanned nodes.now homes.now plan.now }
    requires memories { AreMemories nodes.now homes.now memories.now }
    requires items { ArePortItems nodes.now homes.now plan.now.slots port items.now }
    requires array { (homes.now.logic ≤ port) × (port < host_of homes.now) }
    ensures { IfOk result (AreBits nodes.now plan.now.slots items.now (claims_of memories.now.lists port)) }
{
    let list = nodes.items.as_slice();
    let places = memories.places.as_slice();
    let mut outs = List::new(alloc);
    'items: for k in 0..items.len() {
        let x = items[k];
        outs.push(bit_of(plan, places, x, &list[x as usize]))?;
    }
    Ok(outs)
}

/// The output bit of an item, by the place of its memory.
fn bit_of(plan: &Plan, places: &[u32], x: u32, item: &Item) -> OutBit
    requires within { x < length plan.now.slots }
    requires bit { IsBitItem item.now }
    requires memory { (m bit : ℕ) → item.now ≡ BlockBit m bit → m < length places.now }
    ensures { IsBitAt plan.now.slots places.now x item.now result }
{
    let slot = plan.slots.as_slice()[x as usize];
    match item {
        Item::BlockBit { block, bit } => OutBit {
            slot,
            block: places[*block as usize],
            bit: *bit,
        },
        Item::Input { .. } => unreachable!(),
        Item::Node { .. } => unreachable!(),
        Item::Latch { .. } => unreachable!(),
    }
}
