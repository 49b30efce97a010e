//! The report of a plan.

ghost use Rattle.std.specs.Prelude.{◌≡◌, ◌<◌, ◌^◌, IfOk, length};
ghost use Rattle.node_defs.specs.WellFormed.{IsWellFormed};
ghost use Rattle.plan_defs.specs.{Homes.AreHomes, Homes.ports_of, Slots.IsFirstFitPlan, Switches.IsSwitch};
ghost use Rattle.plan_text.specs.{Counted.HasPorts, Lines.report_text, Reports.IsReport};

use crate::figures::Figures;
use crate::lines::{push_count, push_items, push_ports};
use net_defs::Netlist;
use node_defs::NodeNet;
use plan_defs::{Homes, Plan, Switch};
use seen_list::{Memory, Text};
use std::alloc::Global;

/// The report of a plan: the slots that a turn wants, a line for each port in port order, and a line for
/// each item in item order. It is refused for want of memory alone.
pub fn report(
    alloc: Global,
    net: &Netlist,
    nodes: &NodeNet,
    homes: &Homes,
    plan: &Plan,
    switch: &Switch,
) -> Result<Text, Memory>
    requires nodes { IsWellFormed nodes.now }
    requires homes { AreHomes nodes.now homes.now }
    requires plan { IsFirstFitPlan nodes.now homes.now plan.now }
    requires switch { IsSwitch nodes.now homes.now plan.now.slots switch.now }
    ensures { IfOk result (IsReport net.now nodes.now homes.now plan.now) }
{
    let figures = Figures::new(alloc, nodes, homes, plan, switch)?;
    report_of(alloc, net, nodes, homes, plan, &figures)
}

/// The report with these figures.
#[tactic(auto, unfolding(crate::specs::Lines::report_text))]
fn report_of(
    alloc: Global,
    net: &Netlist,
    nodes: &NodeNet,
    homes: &Homes,
    plan: &Plan,
    figures: &Figures,
) -> Result<Text, Memory>
    requires few { ports_of homes.now < 2 ^ 32 }
    requires homes { length homes.now.items ≡ length nodes.now.items }
    requires slots { length plan.now.slots ≡ length nodes.now.items }
    requires ports { HasPorts homes.now figures.now }
    requires items { length figures.now.readers.lists ≡ length nodes.now.items }
    ensures { IfOk result (λ text. text ≡ report_text net.now nodes.now homes.now plan.now figures.now) }
{
    let mut text = Text::new(alloc);
    push_count(&mut text, b"slots ", plan.needed as u64)?;
    text.push_bytes(b"\n")?;
    push_ports(&mut text, homes, figures)?;
    push_items(&mut text, net, nodes, homes, plan.slots.as_slice(), figures)?;
    Ok(text)
}
