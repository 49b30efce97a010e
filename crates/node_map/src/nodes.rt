//! The nodes of a gate.

ghost use Rattle.std.specs.Prelude.{◌≡◌, ◌+◌, ◌^◌, ◌<◌, ◌≤◌, ℕ, length, All, Some, slice_get, OnOk, IfOk};
ghost use Rattle.limits.specs.declared.TheConstants.{MAX_GATE_OPERANDS};
ghost use Rattle.logic_four.specs.{declared.V4.TheVariants.Zero, Kinds.AllowsOperands};
ghost use Rattle.net_defs.specs.{Valid.IsSignal, Steps.is_late};
ghost use Rattle.node_defs.specs.declared.items.Feed.TheVariants.{Fixed};
ghost use Rattle.node_map.specs.code.Nodes.{IsFeed, AreFeeds, IsNodeAt, node_kind};
ghost use Rattle.node_map.specs.code.{Wires.operands_of, Wires.helpers_at, Places.IsNumbering, Tables.Keeps, Tables.AddsOnly, Tables.AreMadeIn};

use crate::numbering::Numbering;
use crate::palette::Palette;
use crate::wires::operands;
use logic_four::{Kind, V4, base_kind};
use net_defs::Netlist;
use node_defs::{Feed, Feeds, Group, Item, Tag, group_at, helper_count};
use seen_list::Memory;

/// The operand that takes a wire of a gate.
fn feed(net: &Netlist, numbering: &Numbering, late: bool, signal: u32, wire: u32) -> Feed
    requires numbered { IsNumbering net.now numbering.now }
    requires there { All (IsSignal net.now) (operands_of net.now signal) }
    requires within { signal < length net.now.signals }
    requires wire { wire < length (operands_of net.now signal) + helpers_at net.now signal }
    ensures { IsFeed numbering.now.names late signal (operands_of net.now signal) wire result }
{
    let ops = operands(net, signal);
    if (wire as usize) < ops.len() {
        Feed::From {
            item: numbering.own_item(ops[wire as usize]),
            tag: if late { Tag::Last } else { Tag::This },
        }
    } else {
        Feed::From {
            item: numbering.helper_item(signal, wire - ops.len() as u32),
            tag: Tag::This,
        }
    }
}

/// The operand at a place of a node that takes the wires of a group.
fn feed_in(
    net: &Netlist,
    numbering: &Numbering,
    late: bool,
    signal: u32,
    group: Group,
    place: u32,
) -> Feed
    requires numbered { IsNumbering net.now numbering.now }
    requires there { All (IsSignal net.now) (operands_of net.now signal) }
    requires within { signal < length net.now.signals }
    requires low { length (operands_of net.now signal) + helpers_at net.now signal < 2 ^ 32 }
    requires wires { group.first + group.size ≤ length (operands_of net.now signal) + helpers_at net.now signal }
    ensures used { place < group.size → IsFeed numbering.now.names late signal (operands_of net.now signal) (group.first + place) result }
    ensures unused { group.size ≤ place → result ≡ Fixed Zero }
{
    if place < group.size {
        feed(net, numbering, late, signal, group.first + place)
    } else {
        Feed::Fixed(V4::Zero)
    }
}

/// The four operands of a node that takes the wires of a group.
fn feeds(net: &Netlist, numbering: &Numbering, late: bool, signal: u32, group: Group) -> Feeds
    requires numbered { IsNumbering net.now numbering.now }
    requires there { All (IsSignal net.now) (operands_of net.now signal) }
    requires within { signal < length net.now.signals }
    requires low { length (operands_of net.now signal) + helpers_at net.now signal < 2 ^ 32 }
    requires few { group.size ≤ 4 }
    requires wires { group.first + group.size ≤ length (operands_of net.now signal) + helpers_at net.now signal }
    ensures { AreFeeds numbering.now.names late signal (operands_of net.now signal) group result }
{
    let a = feed_in(net, numbering, late, signal, group, 0);
    let b = feed_in(net, numbering, late, signal, group, 1);
    let c = feed_in(net, numbering, late, signal, group, 2);
    let d = feed_in(net, numbering, late, signal, group, 3);
    Feeds { a, b, c, d }
}

fn node_kind(kind: Kind, count: u32, place: u32) -> Kind
    requires { count ≤ MAX_GATE_OPERANDS }
    ensures { result ≡ node_kind kind count place }
{
    if place < helper_count(count) {
        base_kind(kind)
    } else {
        kind
    }
}

/// The node at a place of a gate: a helper by its number, or, after the helpers, its own.
pub(crate) fn node(
    palette: &mut Palette,
    net: &Netlist,
    numbering: &Numbering,
    late: bool,
    signal: u32,
    kind: Kind,
    place: u32,
) -> Result<Item, Memory>
    requires numbered { IsNumbering net.now numbering.now }
    requires there { All (IsSignal net.now) (operands_of net.now signal) }
    requires within { signal < length net.now.signals }
    requires allowed { AllowsOperands kind (length (operands_of net.now signal)) }
    requires among { place ≤ helpers_at net.now signal }
    requires room { length palette.old.shelf.tables + 1 < 2 ^ 32 }
    requires known { AreMadeIn palette.old.shelf.tables palette.old.made }
    ensures known { OnOk result (AreMadeIn palette.new.shelf.tables palette.new.made) }
    ensures kept { OnOk result (Keeps palette.old.shelf.tables palette.new.shelf.tables) }
    ensures node { IfOk result
        (IsNodeAt numbering.now.names palette.old.shelf.tables palette.new.shelf.tables late signal (operands_of net.now signal) kind place) }
{
    let count = operands(net, signal).len() as u32;
    let group = group_at(count, place);
    let table = palette.number(node_kind(kind, count, place), group.size)?;
    let feeds = feeds(net, numbering, late, signal, group);
    Ok(Item::Node { table, feeds })
}
