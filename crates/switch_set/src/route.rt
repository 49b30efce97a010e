//! The settings of the switch for items with homes and slots.

ghost use Rattle.std.specs.Prelude.{IfOk};
ghost use Rattle.node_defs.specs.WellFormed.{IsWellFormed};
ghost use Rattle.plan_defs.specs.{Homes.AreHomes, Slots.IsFirstFitPlan, Switches.IsSwitch};

use crate::links::{link, unlinked};
use crate::order::slot_order;
use node_defs::NodeNet;
use plan_defs::{Homes, Plan, Readers, Switch};
use seen_list::Memory;
use std::alloc::Global;

/// What each port sends and receives in each slot, for items at their homes in the slots of the
/// first-fit plan: in its slot the home of an item that is read sends it to all its readers, and
/// each reader receives it from there. Each port's sends and receipts are in slot order, at most
/// one of each in a slot, and the readers of a send are in ascending order. It is refused for want
/// of memory alone.
pub fn settings(
    alloc: Global,
    nodes: &NodeNet,
    homes: &Homes,
    plan: &Plan,
) -> Result<Switch, Memory>
    requires nodes { IsWellFormed nodes.now }
    requires homes { AreHomes nodes.now homes.now }
    requires plan { IsFirstFitPlan nodes.now homes.now plan.now }
    ensures { IfOk result (IsSwitch nodes.now homes.now plan.now.slots) }
{
    let readers = Readers::new(alloc, nodes, homes)?;
    let order = slot_order(alloc, plan.slots.as_slice())?;
    let mut ports = unlinked(alloc, (homes.logic + homes.array + 1) as usize)?;
    let home_ports = homes.items.as_slice();
    'items: for placed in &order {
        let item = placed.item as usize;
        let heard = readers.of(item);
        link(alloc, &mut ports, placed.slot, home_ports[item], heard)?;
    }
    Ok(Switch { ports })
}
