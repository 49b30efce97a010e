//! The ports that use each item, as rows of bits.

ghost use Rattle.std.specs.Prelude.{◌≡◌, ℕ, ◌<◌, Contains, IfOk};
ghost use Rattle.plan_defs.specs.{Bits.Adds, Homes.AreHomes, Readers.ItemTakes, Readers.MemoryTakes, code.UserRows.HasPlace, code.UserRows.AreUsers};
ghost use Rattle.node_defs.specs.Takes.{FeedTakes, IsOneOf, Takes, BlockTakes};
ghost use Rattle.node_defs.specs.WellFormed.{IsWellFormed};

use crate::BitRows;
use crate::plan::Homes;
use node_defs::{Feed, Feeds, Item, NodeBlock, NodeNet};
use seen_list::Memory;
use std::alloc::Global;

/// A row of 256 bits for each item: the ports that use it.
pub(crate) fn users(alloc: Global, nodes: &NodeNet, homes: &Homes) -> Result<BitRows, Memory>
    requires nodes { IsWellFormed nodes.now }
    requires homes { AreHomes nodes.now homes.now }
    ensures { IfOk result (AreUsers nodes.now homes.now) }
{
    let mut rows = BitRows::new(alloc, nodes.items.len(), 4)?;
    mark_items(&mut rows, nodes, homes);
    mark_blocks(&mut rows, nodes, homes);
    let host = (homes.logic + homes.array) as usize;
    mark_list(&mut rows, nodes.printed.as_slice(), host);
    Ok(rows)
}

/// Marks the homes of items as users of what the items take.
fn mark_items(rows: &mut BitRows, nodes: &NodeNet, homes: &Homes)
    requires homes { AreHomes nodes.now homes.now }
    requires places { (o port : ℕ) → ItemTakes nodes.now homes.now o port → HasPlace rows.old o port }
    ensures { Adds rows.old rows.new (ItemTakes nodes.now homes.now) }
{
    let items = nodes.items.as_slice();
    let ports = homes.items.as_slice();
    'items: for taker in 0..items.len() {
        mark_item(rows, &items[taker], ports[taker] as usize);
    }
}

/// Marks the port as a user of what the item takes.
fn mark_item(rows: &mut BitRows, item: &Item, port: usize)
    requires { (o : ℕ) → Takes item.now o → HasPlace rows.old o port }
    ensures { Adds rows.old rows.new (λ o p. Takes item.now o × (p ≡ port)) }
{
    match item {
        Item::Input { .. } => {}
        Item::BlockBit { .. } => {}
        Item::Node { feeds, .. } => mark_feeds(rows, feeds, port),
        Item::Latch { op } => rows.put(*op as usize, port),
    }
}

/// Marks the port as a user of what one of the operands takes.
fn mark_feeds(rows: &mut BitRows, feeds: &Feeds, port: usize)
    requires { (o : ℕ) → IsOneOf (λ feed. FeedTakes feed o) feeds.now → HasPlace rows.old o port }
    ensures { Adds rows.old rows.new (λ o p. IsOneOf (λ feed. FeedTakes feed o) feeds.now × (p ≡ port)) }
{
    mark_feed(rows, feeds.a, port);
    mark_feed(rows, feeds.b, port);
    mark_feed(rows, feeds.c, port);
    mark_feed(rows, feeds.d, port);
}

/// Marks the port as a user of what the operand takes.
fn mark_feed(rows: &mut BitRows, feed: Feed, port: usize)
    requires { (o : ℕ) → FeedTakes feed o → HasPlace rows.old o port }
    ensures { Adds rows.old rows.new (λ o p. FeedTakes feed o × (p ≡ port)) }
{
    match feed {
        Feed::From { item, .. } => rows.put(item as usize, port),
        Feed::Fixed(_) => {}
    }
}

/// Marks the homes of memories as users of what the memories take.
fn mark_blocks(rows: &mut BitRows, nodes: &NodeNet, homes: &Homes)
    requires homes { AreHomes nodes.now homes.now }
    requires places { (o port : ℕ) → MemoryTakes nodes.now homes.now o port → HasPlace rows.old o port }
    ensures { Adds rows.old rows.new (MemoryTakes nodes.now homes.now) }
{
    let blocks = nodes.blocks.as_slice();
    let ports = homes.blocks.as_slice();
    'memories: for memory in 0..blocks.len() {
        mark_block(rows, &blocks[memory], ports[memory] as usize);
    }
}

/// Marks the port as a user of what the memory takes.
fn mark_block(rows: &mut BitRows, block: &NodeBlock, port: usize)
    requires { (o : ℕ) → BlockTakes block.now o → HasPlace rows.old o port }
    ensures { Adds rows.old rows.new (λ o p. BlockTakes block.now o × (p ≡ port)) }
{
    rows.put(block.we as usize, port);
    mark_list(rows, block.address.as_slice(), port);
    mark_list(rows, block.word.as_slice(), port);
}

/// Marks the port as a user of each item of a list.
fn mark_list(rows: &mut BitRows, items: &[u32], port: usize)
    requires { (o : ℕ) → Contains items.now o → HasPlace rows.old o port }
    ensures { Adds rows.old rows.new (λ o p. Contains items.now o × (p ≡ port)) }
{
    'items: for i in 0..items.len() {
        rows.put(items[i] as usize, port);
    }
}
