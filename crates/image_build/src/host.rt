//! The work of the host.

ghost use Rattle.std.specs.Prelude.{◌≡◌, ◌<◌, ◌^◌, IfOk, count_by, length};
ghost use Rattle.plan_defs.specs.Homes.{host_of};
ghost use Rattle.node_defs.specs.WellFormed.{is_input};
ghost use Rattle.image_build.specs.{PortItems.ArePortItems, code.Layouts.AreInputs, code.Layouts.IsInputFor, code.Layouts.IsWorkFor, Plans.IsPlanned};
ghost use Rattle.image_build.specs.code.Plans.{IsInputItem};

use crate::sources::sources_of;
use image_defs::{InColumn, Work};
use node_defs::{Item, NodeNet};
use plan_defs::{Homes, Plan};
use seen_list::{List, Memory};
use std::alloc::Global;

/// The inputs that the host feeds, and where it takes what is printed from.
pub(crate) fn host_work(
    alloc: Global,
    nodes: &NodeNet,
    homes: &Homes,
    plan: &Plan,
    port: u32,
    items: &[u32],
) -> Result<Work, Memory>
    requires planned { IsPlanned nodes.now homes.now plan.now }
    requires items { ArePortItems nodes.now homes.now plan.now.slots port items.now }
    requires host { port ≡ host_of homes.now }
    ensures { IfOk result (IsWorkFor nodes.now homes.now plan.now.slots port items.now) }
{
    let inputs = inputs_of(alloc, nodes, homes, plan, port, items)?;
    let printed = sources_of(alloc, homes, plan, port, nodes.printed.as_slice(), false)?;
    Ok(Work::Host { inputs, printed })
}

/// The inputs of these items.
fn inputs_of(
    alloc: Global,
    nodes: &NodeNet,
    homes: &Homes,
    plan: &Plan,
    port: u32,
    items: &[u32],
) -> Result<List<InColumn>, Memory>
    requires planned { IsPlanned nodes.now homes.now plan.now }
    requires items { ArePortItems nodes.now homes.now plan.now.slots port items.now }
    requires host { port ≡ host_of homes.now }
    ensures { IfOk result (AreInputs nodes.now plan.now.slots items.now) }
{
    let list = nodes.items.as_slice();
    let mut inputs = List::new(alloc);
    'items: for k in 0..items.len() {
        let x = items[k];
        inputs.push(input_of(plan, x, &list[x as usize]))?;
    }
    Ok(inputs)
}

/// The input of an item.
fn input_of(plan: &Plan, x: u32, item: &Item) -> InColumn
    requires within { x < length plan.now.slots }
    requires input { IsInputItem item.now }
    ensures { IsInputFor plan.now.slots x item.now result }
{
    let slot = plan.slots.as_slice()[x as usize];
    match item {
        Item::Input { column } => InColumn {
            slot,
            column: *column,
        },
        Item::BlockBit { .. } => unreachable!(),
        Item::Node { .. } => unreachable!(),
        Item::Latch { .. } => unreachable!(),
    }
}

/// The number of inputs.
pub(crate) fn column_count(items: &[Item]) -> u32
    requires { length items.now < 2 ^ 31 }
    ensures { result ≡ count_by is_input items.now }
{
    items
        .iter()
        .filter(|item| matches!(item, Item::Input { .. }))
        .count() as u32
}
