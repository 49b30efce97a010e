//! Which items each item takes, and which ports use each item.

ghost use Rattle.std.specs.Prelude.{◌≡◌, ℕ, ◌+◌, ◌<◌, ◌≤◌, IfOk, OnOk, [], length, slice_index, Some, slice_get};
ghost use Rattle.std.specs.List.{sum_by, range_with_len};
ghost use Rattle.node_defs.specs.WellFormed.{IsMemoryOf, IsWellFormed};
ghost use Rattle.plan_defs.specs.Homes.{AreHomes, block_home, home_of};
ghost use Rattle.home_pick.specs.Crossings.{block_uses, feed_uses, item_uses, memory_uses, uses_by};
ghost use Rattle.home_pick.specs.code.Uses.{bag_at, AreBags, AreTakes, AreUses, Gives, IsTaken};
ghost use Rattle.home_pick.specs.{Bags.where_at, code.Bags.times, code.Bags.IsBag};

use crate::bags::{Entry, bag_of, give};
use crate::uses::{empty_bags, give_all, give_bag, places_of};
use node_defs::{Feed, Feeds, Item, NodeBlock, NodeNet};
use plan_defs::Homes;
use seen_list::{List, Memory};
use std::alloc::Global;

/// For each item the items that it takes, each with at how many places.
pub(crate) fn takes_of(alloc: Global, nodes: &NodeNet) -> Result<List<List<Entry>>, Memory>
    ensures { IfOk result (AreTakes nodes.now) }
{
    let mut takes = List::new(alloc);
    let items = nodes.items.as_slice();
    'items: for u in 0..items.len() {
        let taken = taken_by(alloc, &items[u])?;
        takes.push(taken)?;
    }
    Ok(takes)
}

/// The items that an item takes.
fn taken_by(alloc: Global, item: &Item) -> Result<List<Entry>, Memory>
    ensures { IfOk result (IsTaken item.now) }
{
    let mut bag = List::new(alloc);
    match item {
        Item::Input { .. } => {}
        Item::BlockBit { .. } => {}
        Item::Node { feeds, .. } => add_feeds(&mut bag, feeds)?,
        Item::Latch { op } => give(&mut bag, *op, 1)?,
    }
    Ok(bag)
}

/// Puts four operands into an empty bag.
fn add_feeds(bag: &mut List<Entry>, feeds: &Feeds) -> Result<(), Memory>
    requires { bag.old ≡ [] }
    ensures bag { OnOk result (IsBag bag.new) }
    ensures size { OnOk result (length bag.new ≤ 4) }
    ensures times { OnOk result ((i : ℕ) → times bag.new i
        ≡ feed_uses feeds.now.a i + feed_uses feeds.now.b i + feed_uses feeds.now.c i + feed_uses feeds.now.d i) }
{
    add_feed(bag, feeds.a)?;
    add_feed(bag, feeds.b)?;
    add_feed(bag, feeds.c)?;
    add_feed(bag, feeds.d)?;
    Ok(())
}

/// Puts the item of an operand into a bag.
fn add_feed(bag: &mut List<Entry>, feed: Feed) -> Result<(), Memory>
    requires { IsBag bag.old }
    ensures bag { OnOk result (IsBag bag.new) }
    ensures size { OnOk result (length bag.new ≤ length bag.old + 1) }
    ensures times { OnOk result ((i : ℕ) → times bag.new i ≡ times bag.old i + feed_uses feed i) }
{
    match feed {
        Feed::From { item, .. } => give(bag, item, 1),
        Feed::Fixed(_) => Ok(()),
    }
}

/// For each item the ports that use it, each with at how many places.
pub(crate) fn uses_of(
    alloc: Global,
    nodes: &NodeNet,
    homes: &Homes,
    takes: &List<List<Entry>>,
) -> Result<List<List<Entry>>, Memory>
    requires nodes { IsWellFormed nodes.now }
    requires homes { AreHomes nodes.now homes.now }
    requires takes { AreTakes nodes.now takes.now }
    ensures { IfOk result (AreUses nodes.now homes.now) }
{
    let places = places_of(alloc, takes)?;
    let mut uses = empty_bags(alloc, places.as_slice(), homes.logic)?;
    add_all(&mut uses, nodes, homes, takes)?;
    Ok(uses)
}

/// Adds the uses by items, memories and the host to bags in which no port stands.
fn add_all(
    uses: &mut List<List<Entry>>,
    nodes: &NodeNet,
    homes: &Homes,
    takes: &List<List<Entry>>,
) -> Result<(), Memory>
    requires nodes { IsWellFormed nodes.now }
    requires homes { AreHomes nodes.now homes.now }
    requires takes { AreTakes nodes.now takes.now }
    requires size { length uses.old ≡ length nodes.now.items }
    requires bags { AreBags uses.old }
    requires none { (i q : ℕ) → times (bag_at uses.old i) q ≡ 0 }
    ensures { OnOk result (AreUses nodes.now homes.now uses.new) }
{
    add_items(uses, nodes, homes, takes)?;
    add_blocks(uses, nodes, homes)?;
    give_all(uses, nodes.printed.as_slice(), homes.logic + homes.array)?;
    Ok(())
}

/// Adds the uses by items.
fn add_items(
    uses: &mut List<List<Entry>>,
    nodes: &NodeNet,
    homes: &Homes,
    takes: &List<List<Entry>>,
) -> Result<(), Memory>
    requires nodes { IsWellFormed nodes.now }
    requires homes { AreHomes nodes.now homes.now }
    requires takes { AreTakes nodes.now takes.now }
    requires size { length uses.old ≡ length nodes.now.items }
    requires bags { AreBags uses.old }
    ensures bags { OnOk result (AreBags uses.new) }
    ensures gives { OnOk result (Gives uses.old uses.new (λ i port.
        sum_by (λ u. where_at (home_of homes.now u) port (uses_by nodes.now u i)) (range_with_len 0 (length nodes.now.items)))) }
{
    let ports = homes.items.as_slice();
    'items: for u in 0..nodes.items.len() {
        give_bag(uses, bag_of(takes, u), ports[u])?;
    }
    Ok(())
}

/// Adds the uses by memories.
fn add_blocks(uses: &mut List<List<Entry>>, nodes: &NodeNet, homes: &Homes) -> Result<(), Memory>
    requires nodes { IsWellFormed nodes.now }
    requires homes { AreHomes nodes.now homes.now }
    requires size { length uses.old ≡ length nodes.now.items }
    requires bags { AreBags uses.old }
    ensures bags { OnOk result (AreBags uses.new) }
    ensures gives { OnOk result (Gives uses.old uses.new (λ i port.
        sum_by (λ m. where_at (block_home homes.now m) port (block_uses nodes.now m i)) (range_with_len 0 (length nodes.now.blocks)))) }
{
    let blocks = nodes.blocks.as_slice();
    let ports = homes.blocks.as_slice();
    'memories: for m in 0..blocks.len() {
        add_block(uses, nodes, &blocks[m], ports[m])?;
    }
    Ok(())
}

/// Adds the uses by one memory.
fn add_block(
    uses: &mut List<List<Entry>>,
    _nodes: &NodeNet,
    block: &NodeBlock,
    port: u32,
) -> Result<(), Memory>
    requires size { length uses.old ≡ length _nodes.now.items }
    requires memory { IsMemoryOf _nodes.now block.now }
    requires bags { AreBags uses.old }
    ensures bags { OnOk result (AreBags uses.new) }
    ensures gives { OnOk result (Gives uses.old uses.new (λ i p. where_at port p (memory_uses (Some block.now) i))) }
{
    give_all(uses, &[block.we], port)?;
    give_all(uses, block.address.as_slice(), port)?;
    give_all(uses, block.word.as_slice(), port)?;
    Ok(())
}
