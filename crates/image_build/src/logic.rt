//! The work of a logic port.

ghost use Rattle.std.specs.Prelude.{◌≡◌, ◌<◌, ◌-◌, ◌^◌, ℕ, IfOk, length};
ghost use Rattle.node_defs.specs.{Takes.Takes, WellFormed.IsComputed, WellFormed.NamesParts};
ghost use Rattle.image_build.specs.{PortItems.ArePortItems, code.Layouts.IsTaskFor, code.Layouts.IsWorkFor, Plans.IsPlanned, code.Plans.Shelves};

use crate::sources::{feed_source, source_of};
use func_table::Shelf;
use image_defs::{Task, Work};
use node_defs::{Item, NodeNet};
use plan_defs::{Homes, Plan};
use seen_list::{List, Memory};
use std::alloc::Global;

/// The tasks of a logic port for its items, with the tables that they look up in.
pub(crate) fn logic_work(
    alloc: Global,
    nodes: &NodeNet,
    homes: &Homes,
    plan: &Plan,
    port: u32,
    items: &[u32],
) -> Result<Work, Memory>
    requires planned { IsPlanned nodes.now homes.now plan.now }
    requires items { ArePortItems nodes.now homes.now plan.now.slots port items.now }
    requires logic { port < homes.now.logic }
    ensures { IfOk result (IsWorkFor nodes.now homes.now plan.now.slots port items.now) }
{
    let list = nodes.items.as_slice();
    let mut shelf = Shelf::new(alloc);
    let mut tasks = List::new(alloc);
    'items: for k in 0..items.len() {
        let x = items[k];
        let task = task_of(&mut shelf, nodes, homes, plan, port, x, &list[x as usize])?;
        tasks.push(task)?;
    }
    Ok(Work::Logic {
        tables: shelf.tables,
        tasks,
    })
}

/// The task of an item, whose table is put on the shelf.
fn task_of(
    shelf: &mut Shelf,
    nodes: &NodeNet,
    homes: &Homes,
    plan: &Plan,
    port: u32,
    x: u32,
    item: &Item,
) -> Result<Task, Memory>
    requires room { length shelf.old.tables < 2 ^ 32 - 1 }
    requires within { x < length plan.now.slots }
    requires computed { IsComputed item.now }
    requires table { NamesParts nodes.now item.now }
    requires as_long { length homes.now.items ≡ length plan.now.slots }
    requires taken { (o : ℕ) → Takes item.now o → o < length plan.now.slots }
    ensures task { IfOk result (IsTaskFor nodes.now homes.now plan.now.slots port shelf.new.tables x item.now) }
    ensures shelf { IfOk result (Shelves shelf.old.tables shelf.new.tables) }
{
    let slot = plan.slots.as_slice()[x as usize];
    match item {
        Item::Node { table, feeds } => {
            let table = shelf.intern(nodes.tables.as_slice()[*table as usize])?;
            Ok(Task::Eval {
                slot,
                table,
                a: feed_source(homes, plan, port, feeds.a),
                b: feed_source(homes, plan, port, feeds.b),
                c: feed_source(homes, plan, port, feeds.c),
                d: feed_source(homes, plan, port, feeds.d),
            })
        }
        Item::Latch { op } => Ok(Task::Hold {
            slot,
            from: source_of(homes, plan, port, *op, true),
        }),
        Item::Input { .. } => unreachable!(),
        Item::BlockBit { .. } => unreachable!(),
    }
}
