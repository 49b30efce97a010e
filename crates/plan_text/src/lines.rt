//! The lines of a report.

ghost use Rattle.std.specs.Prelude.{◌≡◌, ◌+◌, ◌<◌, ◌^◌, ◌++◌, codes, decimal, OnOk, [], length, slice_index_or};
ghost use Rattle.std.specs.List.{flat_map, range_with_len};
ghost use Rattle.plan_defs.specs.Homes.{ports_of};
ghost use Rattle.plan_text.specs.Lines.{port_name, port_part, port_line, helper_part, item_name, item_line};
ghost use Rattle.plan_text.specs.Counted.{HasPorts};

use crate::figures::Figures;
use net_defs::{Netlist, name_of};
use node_defs::NodeNet;
use plan_defs::Homes;
use seen_list::{Memory, Text};

/// Adds a line for each port, in port order.
pub(crate) fn push_ports(text: &mut Text, homes: &Homes, figures: &Figures) -> Result<(), Memory>
    requires few { ports_of homes.now < 2 ^ 32 }
    requires shape { HasPorts homes.now figures.now }
    ensures { OnOk result (text.new ≡ text.old ++ flat_map (port_line homes.now figures.now) (range_with_len 0 (ports_of homes.now))) }
{
    'ports: for port in 0..homes.logic + homes.array + 1 {
        push_port(text, homes, figures, port)?;
    }
    Ok(())
}

/// Adds the line of a port.
#[tactic(auto, unfolding(crate::specs::Lines::port_line))]
fn push_port(text: &mut Text, homes: &Homes, figures: &Figures, port: u32) -> Result<(), Memory>
    requires few { ports_of homes.now < 2 ^ 32 }
    requires port { port < ports_of homes.now }
    requires shape { HasPorts homes.now figures.now }
    ensures { OnOk result (text.new ≡ text.old ++ port_line homes.now figures.now port) }
{
    push_port_name(text, homes, port)?;
    push_count(
        text,
        b" items ",
        figures.items.as_slice()[port as usize] as u64,
    )?;
    push_port_part(text, homes, figures, port)?;
    push_count(
        text,
        b" takes ",
        figures.takes.as_slice()[port as usize] as u64,
    )?;
    text.push_bytes(b"\n")?;
    Ok(())
}

/// Adds what the line of a port has of its kind.
#[tactic(auto, unfolding(crate::specs::Lines::port_part))]
fn push_port_part(
    text: &mut Text,
    homes: &Homes,
    figures: &Figures,
    port: u32,
) -> Result<(), Memory>
    requires few { ports_of homes.now < 2 ^ 32 }
    requires shape { HasPorts homes.now figures.now }
    ensures { OnOk result (text.new ≡ text.old ++ port_part homes.now figures.now port) }
{
    if port < homes.logic {
        push_count(
            text,
            b" tables ",
            figures.tables.as_slice()[port as usize] as u64,
        )
    } else if port < homes.logic + homes.array {
        let array = port - homes.logic;
        push_count(text, b" bits ", figures.bits.as_slice()[array as usize])
    } else {
        Ok(())
    }
}

/// Adds the name of a port.
#[tactic(auto, unfolding(crate::specs::Lines::port_name))]
fn push_port_name(text: &mut Text, homes: &Homes, port: u32) -> Result<(), Memory>
    requires { ports_of homes.now < 2 ^ 32 }
    ensures { OnOk result (text.new ≡ text.old ++ port_name homes.now port) }
{
    if port < homes.logic {
        push_count(text, b"l", port as u64)
    } else if port < homes.logic + homes.array {
        push_count(text, b"a", (port - homes.logic) as u64)
    } else {
        text.push_bytes(b"h")
    }
}

/// Adds a word and a number.
pub(crate) fn push_count(text: &mut Text, word: &[u8], count: u64) -> Result<(), Memory>
    ensures { OnOk result (text.new ≡ text.old ++ (word.now ++ decimal count)) }
{
    text.push_bytes(word)?;
    text.push_decimal(count)
}

/// Adds a line for each item, in item order.
pub(crate) fn push_items(
    text: &mut Text,
    net: &Netlist,
    nodes: &NodeNet,
    homes: &Homes,
    slots: &[u32],
    figures: &Figures,
) -> Result<(), Memory>
    requires few { ports_of homes.now < 2 ^ 32 }
    requires homes { length homes.now.items ≡ length nodes.now.items }
    requires slots { length slots.now ≡ length nodes.now.items }
    requires shape { length figures.now.readers.lists ≡ length nodes.now.items }
    ensures { OnOk result (text.new ≡ text.old ++ flat_map (item_line net.now nodes.now homes.now slots.now figures.now)
        (range_with_len 0 (length nodes.now.items))) }
{
    'items: for i in 0..nodes.items.len() {
        push_item(text, net, nodes, homes, slots, figures, i)?;
    }
    Ok(())
}

/// Adds the line of an item.
#[tactic(auto, unfolding(crate::specs::Lines::item_line))]
fn push_item(
    text: &mut Text,
    net: &Netlist,
    nodes: &NodeNet,
    homes: &Homes,
    slots: &[u32],
    figures: &Figures,
    i: usize,
) -> Result<(), Memory>
    requires few { ports_of homes.now < 2 ^ 32 }
    requires homes { i < length homes.now.items }
    requires slots { i < length slots.now }
    requires shape { i < length figures.now.readers.lists }
    ensures { OnOk result (text.new ≡ text.old ++ item_line net.now nodes.now homes.now slots.now figures.now i) }
{
    push_item_name(text, net, nodes, i)?;
    text.push_bytes(b" ")?;
    push_port_name(text, homes, homes.items.as_slice()[i])?;
    push_count(text, b" ", slots[i] as u64)?;
    push_readers(text, homes, readers_of(figures, i))?;
    text.push_bytes(b"\n")?;
    Ok(())
}

/// The readers of an item.
fn readers_of(figures: &Figures, i: usize) -> &[u32]
    requires { i < length figures.now.readers.lists }
    ensures { result.now ≡ slice_index_or figures.now.readers.lists i [] }
{
    figures.readers.of(i)
}

/// Adds the name of an item.
#[tactic(auto, unfolding(crate::specs::Lines::item_name))]
fn push_item_name(text: &mut Text, net: &Netlist, nodes: &NodeNet, i: usize) -> Result<(), Memory>
    ensures { OnOk result (text.new ≡ text.old ++ item_name net.now nodes.now i) }
{
    match nodes.names.get(i) {
        Some(name) => {
            text.push_bytes(name_of(net, name.signal))?;
            push_helper(text, name.helper)
        }
        None => Ok(()),
    }
}

/// Adds a slash and the number of a helper.
#[tactic(auto, unfolding(crate::specs::Lines::helper_part))]
fn push_helper(text: &mut Text, helper: Option<u32>) -> Result<(), Memory>
    ensures { OnOk result (text.new ≡ text.old ++ helper_part helper) }
{
    match helper {
        Some(number) => push_count(text, b"/", number as u64),
        None => Ok(()),
    }
}

/// Adds the names of ports, each after a space.
fn push_readers(text: &mut Text, homes: &Homes, readers: &[u32]) -> Result<(), Memory>
    requires { ports_of homes.now < 2 ^ 32 }
    ensures { OnOk result (text.new ≡ text.old ++ flat_map (λ port. codes " " ++ port_name homes.now port) readers.now) }
{
    for port in readers {
        text.push_bytes(b" ")?;
        push_port_name(text, homes, *port)?;
    }
    Ok(())
}
