//! `map_nodes` with ample memory, against items written out by hand.

ghost use Rattle.net_defs.specs.Valid.{IsValid};

use super::items::{items_of, netlist_of, timing_of};
use super::wanted::{Wanted, parts_of};
use net_defs::Netlist;
use node_defs::{Feed, Feeds, Item, ItemName, NodeNet, Tag};
use std::alloc::Global;

/// Netlists, each in the timing that its word names, with `|` between them. Behind `=>` stand the
/// number of the first node, the number of tables, and a line for each item from there on: the number of its signal, and
/// of a helper a `.` and its own number; then its table and its operands, or `register` and its operand. A `'` marks a
/// value of the last turn. In unit delay only the first of three levels reads the last turn.
const CASES: &str = "\
rank: INPUT(a)\nINPUT(b)\nINPUT(c)\nINPUT(d)\nINPUT(e)\n\
z = NAND(a, b, c, d, e)\n\
=> items 5 3\n\
5.0: 0 of 0 1 2 3\n\
5.1: 1 of 4\n\
5: 2 of 5 6\n\
|rank: INPUT(a)\nINPUT(b)\nINPUT(c)\nINPUT(d)\nINPUT(e)\nINPUT(f)\nINPUT(g)\n\
z = BUS(a, b, c, d, e, f, g)\n\
=> items 7 3\n\
7.0: 0 of 0 1 2 3\n\
7.1: 1 of 4 5 6\n\
7: 2 of 7 8\n\
|unit: INPUT(a)\nINPUT(b)\nINPUT(c)\nINPUT(d)\nINPUT(e)\nINPUT(f)\nINPUT(g)\nINPUT(h)\nINPUT(i)\n\
INPUT(j)\nINPUT(k)\nINPUT(l)\nINPUT(m)\nINPUT(n)\nINPUT(o)\nINPUT(p)\nINPUT(q)\nOUTPUT(z)\n\
z = AND(a, b, c, d, e, f, g, h, i, j, k, l, m, n, o, p, q)\n\
=> items 17 3\n\
17.0: 0 of 0' 1' 2' 3'\n\
17.1: 0 of 4' 5' 6' 7'\n\
17.2: 0 of 8' 9' 10' 11'\n\
17.3: 0 of 12' 13' 14' 15'\n\
17.4: 1 of 16'\n\
17.5: 0 of 17 18 19 20\n\
17.6: 1 of 21\n\
17: 2 of 22 23\n\
|z: INPUT(a)\nINPUT(b)\nz = NAND(a, b, a, b, a)\ny = NOT(z)\n\
=> items 2 4\n\
2.0: 0 of 0' 1' 0' 1'\n\
2.1: 1 of 0'\n\
2: 2 of 2 3\n\
3: 3 of 4\n\
|rank: INPUT(1)\nINPUT(2)\nINPUT(3)\nINPUT(6)\nINPUT(7)\n\
10 = NAND(1, 3)\n11 = NAND(3, 6)\n16 = NAND(2, 11)\n19 = NAND(11, 7)\n22 = NAND(10, 16)\n23 = NAND(16, 19)\n\
=> items 5 1\n\
5: 0 of 0 2\n\
6: 0 of 2 3\n\
7: 0 of 1 6\n\
8: 0 of 6 4\n\
9: 0 of 5 7\n\
10: 0 of 7 8\n\
|rank: z = NOT(q)\nr = DFF(z)\n[q] = RAM(w; a, b; d)\nINPUT(w)\nINPUT(a)\nINPUT(b)\nINPUT(d)\n\
=> items 5 1\n\
4: 0 of 4\n\
5: register 5\n\
|rank: INPUT(G0)\nINPUT(G1)\nINPUT(G2)\nINPUT(G3)\n\
G5 = DFF(G10)\nG6 = DFF(G11)\nG7 = DFF(G13)\nG14 = NOT(G0)\nG17 = NOT(G11)\nG8 = AND(G14, G6)\n\
G15 = OR(G12, G8)\nG16 = OR(G3, G8)\nG9 = NAND(G16, G15)\nG10 = NOR(G14, G11)\nG11 = NOR(G5, G9)\n\
G12 = NOR(G1, G7)\nG13 = NOR(G2, G12)\n\
=> items 4 5\n\
4: register 16\n\
5: register 14\n\
6: register 12\n\
7: 0 of 0\n\
9: 1 of 7 5\n\
15: 2 of 1 6\n\
10: 3 of 9 8\n\
11: 3 of 3 8\n\
16: 2 of 2 9\n\
12: 4 of 11 10\n\
14: 2 of 4 13\n\
8: 0 of 14\n\
13: 2 of 7 14\n";

fn cases() -> &'static str {
    CASES
}

/// Tells the signal of an item, and the number of a helper.
fn tell_name(wanted: &mut Wanted<'_>, name: &ItemName) {
    wanted.tell_number(name.signal);
    if let Some(helper) = name.helper {
        wanted.tell(b".");
        wanted.tell_number(helper);
    }
}

/// Tells an operand; nothing of a value that is always 0.
fn tell_feed(wanted: &mut Wanted<'_>, feed: &Feed) {
    if let Feed::From { item, tag } = feed {
        wanted.tell(b" ");
        wanted.tell_number(*item);
        if *tag == Tag::Last {
            wanted.tell(b"'");
        }
    }
}

fn tell_node(wanted: &mut Wanted<'_>, table: u32, feeds: &Feeds) {
    wanted.tell_number(table);
    wanted.tell(b" of");
    tell_feed(wanted, &feeds.a);
    tell_feed(wanted, &feeds.b);
    tell_feed(wanted, &feeds.c);
    tell_feed(wanted, &feeds.d);
}

fn tell_item(wanted: &mut Wanted<'_>, item: &Item) {
    match item {
        Item::Latch { op } => {
            wanted.tell(b"register ");
            wanted.tell_number(*op);
        }
        Item::Node { table, feeds } => tell_node(wanted, *table, feeds),
        Item::Input { .. } | Item::BlockBit { .. } => wanted.tell(b"no node"),
    }
}

/// Tells the items from the first node on.
fn tell_items(wanted: &mut Wanted<'_>, first: usize, items: &[Item], names: &[ItemName]) {
    for place in 0..items.len().min(names.len()) {
        if place >= first {
            tell_name(wanted, &names[place]);
            wanted.tell(b": ");
            tell_item(wanted, &items[place]);
            wanted.tell(b"\n");
        }
    }
}

fn tell_nodes(wanted: &mut Wanted<'_>, nodes: &NodeNet) {
    let (items, names) = (nodes.items.as_slice(), nodes.names.as_slice());
    let tables = u32::try_from(nodes.tables.len()).unwrap_or(u32::MAX);
    wanted.tell_line("items", &[nodes.first_node, tables]);
    tell_items(wanted, nodes.first_node as usize, items, names);
}

/// Tells the items of a netlist, if it has an order.
fn tell_mapped(alloc: Global, wanted: &mut Wanted<'_>, net: &Netlist, mode: &str)
    requires { IsValid net.now }
{
    if let Some(timing) = timing_of(alloc, mode, net) {
        if let Some(nodes) = items_of(alloc, net, &timing) {
            tell_nodes(wanted, &nodes);
            drop(nodes);
        }
        drop(timing);
    }
}

/// Whether the netlist of a case has these items.
fn has_items(alloc: Global, case: &str) -> bool {
    let (mode, text, wanted) = parts_of(case);
    let mut wanted = Wanted::new(wanted);
    if let Some(net) = netlist_of(alloc, text) {
        tell_mapped(alloc, &mut wanted, &net, mode);
        drop(net);
    }
    wanted.is_told()
}

#[test]
fn netlists_have_these_items(rt: HostRuntime) {
    for case in cases().split('|') {
        assert!(rt; has_items(rt.alloc(), case));
    }
}
