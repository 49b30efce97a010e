//! Output bits and their memories. The bits of a memory stand side by side as a rule, so the memory that was
//! compared last is kept in mind, and not compared again for each of its bits.

ghost use Rattle.std.specs.Prelude.{◌≡◌, ◌↔◌, IsTrue, IfSome, Some};
ghost use Rattle.image_defs.specs.{Places.blocks_of, Matches.Implements, Matches.BitImplements, Matches.MemoryImplements, Claimed.lists_of};
ghost use Rattle.image_check.specs.code.{Differences.AsClaimed, Memories.IsMemory, Memories.IsMemoryAt, Memories.AreSameMemories, OnePorts.IsOnePort};

use crate::claims::{OnePort, carries_item, carry_all};
use image_defs::{BlockWork, OutBit, Work};
use node_defs::{Item, NodeBlock, NodeNet, Tag};
use seen_list::List;

/// A memory of a port and a memory of the items, by their numbers, that have the same operands.
#[derive(Clone, Copy)]
pub(crate) struct Pair {
    pub(crate) block: u32,
    pub(crate) memory: u32,
}

/// The memories of a place that is as it claims, where it is an output bit.
pub(crate) fn pair_at(one: &OnePort, nodes: &NodeNet, k: usize, claimed: u32) -> Option<Pair>
    requires { AsClaimed one.now nodes.now k claimed }
    ensures { IfSome result (AreSameMemories one.now (blocks_of one.now.port.now.work) nodes.now.blocks) }
{
    match nodes.items.get(claimed as usize) {
        Some(item) => pair_of(one, nodes, k, item),
        None => None,
    }
}

fn pair_of(one: &OnePort, _nodes: &NodeNet, k: usize, item: &Item) -> Option<Pair>
    requires { Implements one.now.file.now.image (lists_of one.now.file.now.claims)
        _nodes.now one.now.number one.now.port.now.ins one.now.port.now.work k item.now }
    ensures { IfSome result (AreSameMemories one.now (blocks_of one.now.port.now.work) _nodes.now.blocks) }
{
    match &one.port.work {
        Work::Logic { .. } => None,
        Work::Array { blocks, outs } => match outs.get(k) {
            Some(out) => pair_of_bit(one, _nodes, blocks, out, item),
            None => None,
        },
        Work::Host { .. } => None,
    }
}

fn pair_of_bit(
    _one: &OnePort,
    _nodes: &NodeNet,
    _blocks: &List<BlockWork>,
    out: &OutBit,
    item: &Item,
) -> Option<Pair>
    requires { BitImplements _one.now.file.now.image (lists_of _one.now.file.now.claims)
        _nodes.now _one.now.number _one.now.port.now.ins _blocks.now out.now item.now }
    ensures { IfSome result (AreSameMemories _one.now _blocks.now _nodes.now.blocks) }
{
    match item {
        Item::Input { .. } => None,
        Item::BlockBit { block, .. } => Some(Pair {
            block: out.block,
            memory: *block,
        }),
        Item::Node { .. } => None,
        Item::Latch { .. } => None,
    }
}

/// Whether these are the memories that are known to be the same.
fn is_known(known: Option<Pair>, block: u32, memory: u32) -> bool
    ensures { IsTrue result ↔ (known ≡ Some (record { block = block; memory = memory })) }
{
    match known {
        Some(pair) => pair.block == block && pair.memory == memory,
        None => false,
    }
}

/// Whether the output bit is the item. Memories that are known to be the same are not compared.
pub(crate) fn bit_implements(
    one: &OnePort,
    nodes: &NodeNet,
    blocks: &List<BlockWork>,
    out: &OutBit,
    item: &Item,
    known: Option<Pair>,
) -> bool
    requires one { IsOnePort one.now }
    requires known { IfSome known (AreSameMemories one.now blocks.now nodes.now.blocks) }
    ensures { IsTrue result ↔ BitImplements one.now.file.now.image (lists_of one.now.file.now.claims)
        nodes.now one.now.number one.now.port.now.ins blocks.now out.now item.now }
{
    match item {
        Item::Input { .. } => false,
        Item::BlockBit { block, bit } => {
            if out.bit != *bit {
                return false;
            }
            if is_known(known, out.block, *block) {
                return true;
            }
            is_memory_at(one, blocks, out.block, &nodes.blocks, *block)
        }
        Item::Node { .. } => false,
        Item::Latch { .. } => false,
    }
}

/// Whether the memories of these numbers, each in its own list, have the same operands.
fn is_memory_at(
    one: &OnePort,
    blocks: &List<BlockWork>,
    block: u32,
    memories: &List<NodeBlock>,
    memory: u32,
) -> bool
    requires { IsOnePort one.now }
    ensures { IsTrue result ↔ IsMemoryAt one.now blocks.now memories.now block memory }
{
    match blocks.get(block as usize) {
        Some(found) => is_memory(one, found, memories, memory),
        None => false,
    }
}

fn is_memory(one: &OnePort, block: &BlockWork, memories: &List<NodeBlock>, memory: u32) -> bool
    requires { IsOnePort one.now }
    ensures { IsTrue result ↔ IsMemory one.now block.now memories.now memory }
{
    match memories.get(memory as usize) {
        Some(found) => memory_implements(one, block, found),
        None => false,
    }
}

fn memory_implements(one: &OnePort, block: &BlockWork, memory: &NodeBlock) -> bool
    requires { IsOnePort one.now }
    ensures { IsTrue result ↔ MemoryImplements one.now.file.now.image (lists_of one.now.file.now.claims)
        one.now.number one.now.port.now.ins block.now memory.now }
{
    if !carries_item(one, &block.we, memory.we, Tag::Last) {
        return false;
    }
    if !carry_all(one, block.address.as_slice(), memory.address.as_slice()) {
        return false;
    }
    carry_all(one, block.word.as_slice(), memory.word.as_slice())
}
