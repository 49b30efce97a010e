//! The passes of the compiler. Each takes what the one before made, and gives it up where it refuses.

ghost use Rattle.std.specs.Prelude.{◌≡◌, IfOk, IfErr, OnOk};
ghost use Rattle.home_pick.specs.Refusals.{IsRight as LacksHomes};
ghost use Rattle.image_build.specs.Built.{IsBuilt};
ghost use Rattle.machine_text.specs.{declared.machine.Machine.Machine, Machines.IsValid as IsValidMachine};
ghost use Rattle.net_defs.specs.Valid.{IsValid, IsValidTiming};
ghost use Rattle.node_defs.specs.{Order.IsMapped, WellFormed.IsWellFormed};
ghost use Rattle.plan_defs.specs.{Switches.IsSwitch, Tables.Fits};
ghost use Rattle.slot_plan.specs.Refusals.{IsRight as LacksPlan};
ghost use Rattle.yse_compile.specs.{Chosen.FitsEither, Compiled.IsRight, Designs.IsAcyclic};
ghost use Rattle.yse_compile.specs.code.Passes.{AreHoused, IsPlanned, compiled_of};
ghost use Rattle.yse_compile.specs.declared.compiler.CompNo.TheVariants as no;

use crate::compiler::{CompNo, Compiled};
use home_pick::{HomeNo, homes};
use image_build::build;
use machine_text::Machine;
use net_defs::{Netlist, Timing};
use node_defs::NodeNet;
use node_map::map_nodes;
use plan_defs::law::items_are_well_formed;
use plan_defs::{Homes, Plan, Switch};
use rank_find::{RankNo, rank};
use seen_list::Memory;
use slot_plan::{PlanNo, first_fit};
use std::alloc::Global;
use switch_set::settings;

/// Items at their homes.
#[derive(Drop)]
pub(crate) struct Housed {
    pub(crate) nodes: NodeNet,
    pub(crate) homes: Homes,
}

/// Items at their homes in their slots.
#[derive(Drop)]
pub(crate) struct Planned {
    pub(crate) housed: Housed,
    pub(crate) plan: Plan,
}

/// What is planned, with its switch.
#[derive(Drop)]
pub(crate) struct Routed {
    pub(crate) planned: Planned,
    pub(crate) switch: Switch,
}

/// The items of the netlist.
pub(crate) fn items_of(alloc: Global, net: &Netlist, timing: &Timing) -> Result<NodeNet, CompNo>
    requires net { IsValid net.now }
    requires timing { IsValidTiming timing.now }
    ensures items { IfOk result (IsMapped net.now timing.now) }
    ensures formed { IfOk result IsWellFormed }
    ensures acyclic { OnOk result (IsAcyclic net.now timing.now) }
    ensures refused { IfErr result (λ no. (machine : Machine) → IsRight net.now machine timing.now no) }
    ensures either { (machine : Machine) → FitsEither net.now machine timing.now → IfErr result (λ refusal. refusal ≡ no.Memory) }
{
    items_are_well_formed();
    match rank(alloc, net, timing) {
        Ok(ranks) => match map_nodes(alloc, net, &ranks, timing) {
            Ok(nodes) => Ok(nodes),
            Err(_) => Err(CompNo::Memory),
        },
        Err(RankNo::Loop(members)) => Err(CompNo::Loop(members)),
        Err(RankNo::Memory) => Err(CompNo::Memory),
    }
}

/// The items at their plain homes.
pub(crate) fn house(alloc: Global, machine: &Machine, nodes: NodeNet) -> Result<Housed, HomeNo>
    requires machine { IsValidMachine machine.now }
    requires nodes { IsWellFormed nodes }
    ensures housed { IfOk result (AreHoused machine.now) }
    ensures same { IfOk result (λ housed. housed.nodes ≡ nodes) }
    ensures refused { IfErr result (LacksHomes nodes machine.now) }
{
    let homes = homes(alloc, &nodes, machine)?;
    Ok(Housed { nodes, homes })
}

/// The items at their plain homes in the slots of their plan, if it fits.
pub(crate) fn plan(alloc: Global, machine: &Machine, housed: Housed) -> Result<Planned, PlanNo>
    requires machine { IsValidMachine machine.now }
    requires housed { AreHoused machine.now housed }
    ensures planned { IfOk result IsPlanned }
    ensures fits { IfOk result (λ planned. Fits housed.nodes housed.homes machine.now planned.plan) }
    ensures same { IfOk result (λ planned. planned.housed ≡ housed) }
    ensures refused { IfErr result (LacksPlan housed.nodes housed.homes machine.now) }
{
    let plan = first_fit(alloc, &housed.nodes, &housed.homes, machine)?;
    Ok(Planned { housed, plan })
}

/// What is planned, with the settings of its switch.
pub(crate) fn route(alloc: Global, planned: Planned) -> Result<Routed, Memory>
    requires { IsPlanned planned }
    ensures switch { IfOk result (λ routed. IsSwitch planned.housed.nodes planned.housed.homes planned.plan.slots routed.switch) }
    ensures same { IfOk result (λ routed. routed.planned ≡ planned) }
{
    let housed = &planned.housed;
    let switch = settings(alloc, &housed.nodes, &housed.homes, &planned.plan)?;
    Ok(Routed { planned, switch })
}

/// What is planned, with its switch and its image.
pub(crate) fn image_of(alloc: Global, timing: &Timing, routed: Routed) -> Result<Compiled, Memory>
    requires timing { IsValidTiming timing.now }
    requires planned { IsPlanned routed.planned }
    requires switch { IsSwitch routed.planned.housed.nodes routed.planned.housed.homes routed.planned.plan.slots routed.switch }
    ensures built { IfOk result (λ compiled. IsBuilt compiled.nodes compiled.homes compiled.plan compiled.switch timing.now compiled.image) }
    ensures same { IfOk result (λ compiled. compiled ≡ compiled_of routed compiled.image) }
{
    let planned = &routed.planned;
    let housed = &planned.housed;
    // A drop by hand saves 3 s of proof.
    match build(
        alloc,
        &housed.nodes,
        &housed.homes,
        &planned.plan,
        &routed.switch,
        timing,
    ) {
        Ok(image) => Ok(Compiled {
            nodes: routed.planned.housed.nodes,
            homes: routed.planned.housed.homes,
            plan: routed.planned.plan,
            switch: routed.switch,
            image,
        }),
        Err(no) => {
            drop(routed);
            Err(no)
        }
    }
}
