//! The items in their order.

ghost use Rattle.std.specs.Prelude.{◌≡◌, ◌+◌, ◌^◌, ◌<◌, ◌≤◌, ◌↔◌, ℕ, [], length, Some, slice_get, slice_index, All, OnOk, IfOk};
ghost use Rattle.func_table.specs.Shelf.{AreDifferent};
ghost use Rattle.net_defs.specs.Valid.{IsValid, IsValidTiming, IsSignal};
ghost use Rattle.node_defs.specs.Items.{own, IsNamed, StandFor, IsNodeBlock};
ghost use Rattle.node_map.specs.code.Made.{driver_at, IsMadeItem, AreMade, AreNodeBlocks};
ghost use Rattle.node_map.specs.code.{Wires.helpers_at, Places.AreKeyed, Places.IsNumbering, Tables.Keeps, Tables.AreMadeIn};

use crate::keys::Key;
use crate::nodes::node;
use crate::numbering::Numbering;
use crate::palette::Palette;
use func_table::Table;
use net_defs::{Block, Driver, Netlist, Timing, is_late};
use node_defs::{Item, NodeBlock};
use seen_list::{List, Memory};
use std::alloc::Global;

/// The item of this key, whose signal has this driver.
fn driven_item(
    palette: &mut Palette,
    net: &Netlist,
    timing: &Timing,
    numbering: &Numbering,
    key: &Key,
    driver: &Driver,
) -> Result<Item, Memory>
    requires valid { IsValid net.now }
    requires timing { IsValidTiming timing.now }
    requires numbered { IsNumbering net.now numbering.now }
    requires driven { driver_at net.now key.now.signal ≡ Some driver.now }
    requires within { key.now.signal < length net.now.signals }
    requires among { key.now.place ≤ helpers_at net.now key.now.signal }
    requires room { length palette.old.shelf.tables + 1 < 2 ^ 32 }
    requires known { AreMadeIn palette.old.shelf.tables palette.old.made }
    ensures known { OnOk result (AreMadeIn palette.new.shelf.tables palette.new.made) }
    ensures kept { OnOk result (Keeps palette.old.shelf.tables palette.new.shelf.tables) }
    ensures item { IfOk result (IsMadeItem net.now timing.now numbering.now.names palette.old.shelf.tables palette.new.shelf.tables key.now) }
{
    let late = is_late(net, timing, key.signal);
    match driver {
        Driver::Input => Ok(Item::Input { column: key.signal }),
        Driver::BlockBit { block, bit } => {
            Ok(Item::BlockBit {
                block: *block,
                bit: *bit,
            })
        }
        Driver::Dff { op } => {
            Ok(Item::Latch {
                op: numbering.own_item(*op),
            })
        }
        Driver::Gate { kind, .. } => {
            let made = node(palette, net, numbering, late, key.signal, *kind, key.place)?;
            Ok(made)
        }
    }
}

/// The item of this key.
fn item(
    palette: &mut Palette,
    net: &Netlist,
    timing: &Timing,
    numbering: &Numbering,
    key: &Key,
) -> Result<Item, Memory>
    requires valid { IsValid net.now }
    requires timing { IsValidTiming timing.now }
    requires numbered { IsNumbering net.now numbering.now }
    requires within { key.now.signal < length net.now.signals }
    requires among { key.now.place ≤ helpers_at net.now key.now.signal }
    requires room { length palette.old.shelf.tables + 1 < 2 ^ 32 }
    requires known { AreMadeIn palette.old.shelf.tables palette.old.made }
    ensures known { OnOk result (AreMadeIn palette.new.shelf.tables palette.new.made) }
    ensures kept { OnOk result (Keeps palette.old.shelf.tables palette.new.shelf.tables) }
    ensures item { IfOk result (IsMadeItem net.now timing.now numbering.now.names palette.old.shelf.tables palette.new.shelf.tables key.now) }
{
    let found = &net.signals.as_slice()[key.signal as usize];
    driven_item(palette, net, timing, numbering, key, &found.driver)
}

/// The items that have these keys.
fn all_items(
    alloc: Global,
    palette: &mut Palette,
    net: &Netlist,
    timing: &Timing,
    numbering: &Numbering,
    keys: &[Key],
) -> Result<List<Item>, Memory>
    requires valid { IsValid net.now }
    requires timing { IsValidTiming timing.now }
    requires numbered { IsNumbering net.now numbering.now }
    requires keyed { AreKeyed net.now keys.now }
    requires none { palette.old.shelf.tables ≡ [] }
    requires made { palette.old.made ≡ [] }
    ensures { IfOk result (AreMade net.now timing.now numbering.now.names palette.new.shelf.tables keys.now) }
{
    let mut items = List::new(alloc);
    'keys: for key in keys {
        items.push(item(palette, net, timing, numbering, key)?)?;
    }
    Ok(items)
}

/// Items, and the tables of those that are nodes by number.
#[derive(Drop)]
pub(crate) struct MadeItems {
    pub items: List<Item>,
    pub tables: List<Table>,
}

/// The items that have these keys, and their tables, each made once.
pub(crate) fn make_items(
    alloc: Global,
    net: &Netlist,
    timing: &Timing,
    numbering: &Numbering,
    keys: &[Key],
) -> Result<MadeItems, Memory>
    requires valid { IsValid net.now }
    requires timing { IsValidTiming timing.now }
    requires numbered { IsNumbering net.now numbering.now }
    requires keyed { AreKeyed net.now keys.now }
    ensures made { IfOk result (λ made. AreMade net.now timing.now numbering.now.names made.tables keys.now made.items) }
    ensures different { IfOk result (λ made. AreDifferent made.tables) }
{
    let mut palette = Palette::new(alloc);
    let items = all_items(alloc, &mut palette, net, timing, numbering, keys)?;
    Ok(MadeItems {
        items,
        tables: palette.shelf.tables,
    })
}

/// The number of the first node or latch: that of inputs and memory outputs.
pub(crate) fn first_node(keys: &[Key]) -> u32
    requires few { length keys.now < 2 ^ 32 }
    requires classes { (x y : ℕ) (one other : Key) → x ≤ y → slice_get keys.now x ≡ Some one
        → slice_get keys.now y ≡ Some other → one.class ≡ 2 → other.class ≡ 2 }
    ensures within { result ≤ length keys.now }
    ensures nodes { (x : ℕ) (key : Key) → slice_get keys.now x ≡ Some key → (key.class ≡ 2) ↔ (result ≤ x) }
{
    'keys: for (x, key) in keys.iter().enumerate() {
        if key.class == 2 {
            return x as u32;
        }
    }
    keys.len() as u32
}

/// The numbers of the items that stand for these signals.
fn stand_for(
    alloc: Global,
    net: &Netlist,
    numbering: &Numbering,
    signals: &[u32],
) -> Result<List<u32>, Memory>
    requires numbered { IsNumbering net.now numbering.now }
    requires there { All (IsSignal net.now) signals.now }
    ensures { IfOk result (λ numbers. StandFor numbering.now.names numbers signals.now) }
{
    let mut numbers = List::new(alloc);
    'signals: for signal in signals {
        numbers.push(numbering.own_item(*signal))?;
    }
    Ok(numbers)
}

fn block(
    alloc: Global,
    net: &Netlist,
    numbering: &Numbering,
    memory: &Block,
) -> Result<NodeBlock, Memory>
    requires numbered { IsNumbering net.now numbering.now }
    requires enable { IsSignal net.now memory.now.we }
    requires address { All (IsSignal net.now) memory.now.address }
    requires word { All (IsSignal net.now) memory.now.word }
    ensures { IfOk result (IsNodeBlock numbering.now.names memory.now) }
{
    let we = numbering.own_item(memory.we);
    let address = stand_for(alloc, net, numbering, memory.address.as_slice())?;
    let word = stand_for(alloc, net, numbering, memory.word.as_slice())?;
    Ok(NodeBlock { we, address, word })
}

/// The memories by the numbers of items.
fn all_blocks(
    alloc: Global,
    net: &Netlist,
    numbering: &Numbering,
) -> Result<List<NodeBlock>, Memory>
    requires valid { IsValid net.now }
    requires numbered { IsNumbering net.now numbering.now }
    ensures { IfOk result (AreNodeBlocks numbering.now.names net.now.blocks) }
{
    let mut blocks = List::new(alloc);
    'memories: for memory in net.blocks.as_slice() {
        blocks.push(block(alloc, net, numbering, memory)?)?;
    }
    Ok(blocks)
}

/// The printed items in file order, and the memories, by the numbers of items.
#[derive(Drop)]
pub(crate) struct References {
    pub printed: List<u32>,
    pub blocks: List<NodeBlock>,
}

/// The printed items and the memories of a netlist by the numbers of items.
pub(crate) fn find_references(
    alloc: Global,
    net: &Netlist,
    numbering: &Numbering,
) -> Result<References, Memory>
    requires valid { IsValid net.now }
    requires numbered { IsNumbering net.now numbering.now }
    ensures printed { IfOk result (λ references. StandFor numbering.now.names references.printed net.now.printed) }
    ensures blocks { IfOk result (λ references. AreNodeBlocks numbering.now.names net.now.blocks references.blocks) }
{
    let printed = stand_for(alloc, net, numbering, net.printed.as_slice())?;
    let blocks = all_blocks(alloc, net, numbering)?;
    Ok(References { printed, blocks })
}
