//! The whole image.

ghost use Rattle.std.specs.Prelude.{◌≡◌, ◌<◌, ◌≤◌, ℕ, List as Items, IfOk, length};
ghost use Rattle.limits.specs.declared.TheConstants.{MAX_SLOTS};
ghost use Rattle.net_defs.specs.{declared.stimulus.Stimulus.Stimulus, Steps.State, Valid.IsValidTiming};
ghost use Rattle.node_defs.specs.{WellFormed.IsWellFormed, Values.AreItemValues};
ghost use Rattle.plan_defs.specs.{Homes.AreHomes, Homes.ports_of, Slots.IsFirstFitPlan, Switches.IsSwitch};
ghost use Rattle.image_build.specs.{PortItems.ArePortItems, PortItems.ArePlanClaims, Built.AreLinksOf, Built.IsBuilt, Built.GivesItems};
ghost use Rattle.image_build.specs.{code.Layouts.IsWorkFor, code.Layouts.IsLaidOut, Plans.IsPlanned, code.Plans.AreMemories, code.Plans.AreFirstPorts};

use crate::array::array_work;
use crate::host::{column_count, host_work};
use crate::links::{links_in, links_out};
use crate::logic::logic_work;
use crate::memories::{Memories, memories_of};
use crate::port_items::port_items;
use image_defs::{Image, PortImage, Work};
use net_defs::Timing;
use node_defs::NodeNet;
use plan_defs::{Homes, Plan, PortLinks, Switch};
use seen_list::{List, Memory};
use std::alloc::Global;

/// The image of items at their homes, in the slots of their first-fit plan, with the switch's settings
/// for them. It has as many slots as the plan needs. A logic port's tables stand in the order in which
/// its tasks first use them, an array port's memories in their order, the host's printed sources in
/// the order of the printed items, and all else of a port in slot order.
pub fn build(
    alloc: Global,
    nodes: &NodeNet,
    homes: &Homes,
    plan: &Plan,
    switch: &Switch,
    timing: &Timing,
) -> Result<Image, Memory>
    requires nodes { IsWellFormed nodes.now }
    requires homes { AreHomes nodes.now homes.now }
    requires plan { IsFirstFitPlan nodes.now homes.now plan.now }
    requires needed { plan.now.needed ≤ MAX_SLOTS }
    requires switch { IsSwitch nodes.now homes.now plan.now.slots switch.now }
    requires timing { IsValidTiming timing.now }
    ensures values { IfOk result (λ image. (stimulus : Stimulus) (values : Items State) → AreItemValues nodes.now timing.now stimulus values
        → GivesItems nodes.now homes.now plan.now timing.now stimulus values image) }
    ensures built { IfOk result (IsBuilt nodes.now homes.now plan.now switch.now timing.now) }
{
    laid_out(alloc, nodes, homes, plan, switch, timing)
}

/// The image, as it is laid out.
fn laid_out(
    alloc: Global,
    nodes: &NodeNet,
    homes: &Homes,
    plan: &Plan,
    switch: &Switch,
    timing: &Timing,
) -> Result<Image, Memory>
    requires planned { IsPlanned nodes.now homes.now plan.now }
    requires switch { IsSwitch nodes.now homes.now plan.now.slots switch.now }
    ensures { IfOk result (λ image. (claims : Items (Items ℕ)) × IsLaidOut nodes.now homes.now plan.now switch.now timing.now claims image) }
{
    let items = port_items(alloc, nodes, homes, plan)?;
    let ports = port_images(alloc, nodes, homes, plan, switch, items.as_slice())?;
    Ok(Image {
        slots: plan.needed,
        units: timing.units,
        init: timing.init,
        columns: column_count(nodes.items.as_slice()),
        ports,
    })
}

/// A port for each list of items, in the order of the lists.
fn port_images(
    alloc: Global,
    nodes: &NodeNet,
    homes: &Homes,
    plan: &Plan,
    switch: &Switch,
    lists: &[List<u32>],
) -> Result<List<PortImage>, Memory>
    requires planned { IsPlanned nodes.now homes.now plan.now }
    requires switch { IsSwitch nodes.now homes.now plan.now.slots switch.now }
    requires claims { ArePlanClaims nodes.now homes.now plan.now.slots lists.now }
    ensures { IfOk result (AreFirstPorts nodes.now homes.now plan.now switch.now lists.now (length lists.now)) }
{
    let memories = memories_of(alloc, nodes, homes)?;
    let links = switch.ports.as_slice();
    let mut ports = List::new(alloc);
    'ports: for p in 0..lists.len() {
        let items = lists[p].as_slice();
        let port = port_image(
            alloc, nodes, homes, plan, &memories, p as u32, items, &links[p],
        )?;
        ports.push(port)?;
    }
    Ok(ports)
}

/// The port of this number, which has these items and these links.
fn port_image(
    alloc: Global,
    nodes: &NodeNet,
    homes: &Homes,
    plan: &Plan,
    memories: &Memories,
    port: u32,
    items: &[u32],
    links: &PortLinks,
) -> Result<PortImage, Memory>
    requires planned { IsPlanned nodes.now homes.now plan.now }
    requires memories { AreMemories nodes.now homes.now memories.now }
    requires port { port < ports_of homes.now }
    requires items { ArePortItems nodes.now homes.now plan.now.slots port items.now }
    ensures work { IfOk result (λ image. IsWorkFor nodes.now homes.now plan.now.slots port items.now image.work) }
    ensures links { IfOk result (AreLinksOf links.now) }
{
    let ins = links_in(alloc, links.receipts.as_slice())?;
    let outs = links_out(alloc, links.sends.as_slice())?;
    let work = work_of(alloc, nodes, homes, plan, memories, port, items)?;
    Ok(PortImage { work, outs, ins })
}

/// What a port does for its items.
fn work_of(
    alloc: Global,
    nodes: &NodeNet,
    homes: &Homes,
    plan: &Plan,
    memories: &Memories,
    port: u32,
    items: &[u32],
) -> Result<Work, Memory>
    requires planned { IsPlanned nodes.now homes.now plan.now }
    requires memories { AreMemories nodes.now homes.now memories.now }
    requires port { port < ports_of homes.now }
    requires items { ArePortItems nodes.now homes.now plan.now.slots port items.now }
    ensures { IfOk result (IsWorkFor nodes.now homes.now plan.now.slots port items.now) }
{
    if port < homes.logic {
        logic_work(alloc, nodes, homes, plan, port, items)
    } else if port < homes.logic + homes.array {
        array_work(alloc, nodes, homes, plan, memories, port, items)
    } else {
        host_work(alloc, nodes, homes, plan, port, items)
    }
}
