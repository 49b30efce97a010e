//! From a netlist to an image: the passes, one after another.

ghost use Rattle.std.specs.Prelude.{◌≡◌, IfOk, IfErr, OnOk};
ghost use Rattle.machine_text.specs.Machines.{IsValid as IsValidMachine};
ghost use Rattle.net_defs.specs.{declared.stimulus.Stimulus.Stimulus, Valid.IsValid, Valid.IsValidTiming};
ghost use Rattle.yse_compile.specs.{Chosen.FitsBy, Chosen.IsChosen, Designs.DesignFits, Compiled.IsCompiled, Compiled.ShowsReference, Compiled.IsRight};
ghost use Rattle.yse_compile.specs.declared.compiler.CompNo.TheVariants as no;

use crate::choose::{Chosen, fit};
use crate::law::refusals_are_right;
use crate::matching::matching_images_show;
use crate::passes::{house, image_of, items_of, plan, route};
use home_pick::HomeNo;
use image_defs::Image;
use machine_text::Machine;
use net_defs::{HomeChoice, Netlist, Timing};
use node_defs::NodeNet;
use plan_defs::{Homes, Plan, Switch};
use seen_list::{List, Memory};
use slot_plan::PlanNo;
use std::alloc::Global;

/// A compiled design.
#[derive(Drop)]
pub struct Compiled {
    /// The items of the netlist.
    pub nodes: NodeNet,
    /// The port of each item and memory.
    pub homes: Homes,
    /// The slot of each item.
    pub plan: Plan,
    /// What each port sends and receives.
    pub switch: Switch,
    /// What the processors run.
    pub image: Image,
}

/// Why a netlist is not compiled: the first that holds of loop, bits, nodes, slots and functions, or
/// want of memory.
#[derive(Drop)]
pub enum CompNo {
    /// These gates, none of them late, are a loop: each is an operand of the next, and the last of the
    /// first. It begins with the gate that stands first in signal order.
    Loop(List<u32>),
    /// The first memory that finds no array port, given by its number, the bits that it needs, and the
    /// most bits that are left on an array port, 0 without one.
    Bits { block: u32, needed: u32, left: u32 },
    /// A turn needs more slots than the machine has.
    Slots { needed: u32, limit: u32 },
    /// The nodes of this logic port, the first such, use more different tables than its own limit.
    Functions { port: u32, needed: u32, limit: u32 },
    /// There was not enough memory.
    Memory,
    /// Each memory has a port, and there are more nodes than all logic ports hold together. It comes
    /// before `Slots`.
    Nodes { needed: u32, limit: u32 },
}

impl From<Memory> for CompNo {
    ghost use Rattle.std.specs.Prelude.{◌≡◌};
    ghost use Rattle.yse_compile.specs.declared.compiler.CompNo.TheVariants.{Memory as NoMemory};

    ghost from_gives = { λ _ e. e ≡ NoMemory };

    fn from(_refused: Memory) -> CompNo {
        CompNo::Memory
    }
}

impl From<HomeNo> for CompNo {
    ghost use Rattle.std.specs.Prelude.{◌≡◌};
    ghost use Rattle.yse_compile.specs.Compiled.{of_homes};

    ghost from_gives = { λ no e. e ≡ of_homes no };

    fn from(no: HomeNo) -> CompNo {
        match no {
            HomeNo::Bits {
                block,
                needed,
                left,
            } => CompNo::Bits {
                block,
                needed,
                left,
            },
            HomeNo::Memory => CompNo::Memory,
            HomeNo::Nodes { needed, limit } => CompNo::Nodes { needed, limit },
        }
    }
}

impl From<PlanNo> for CompNo {
    ghost use Rattle.std.specs.Prelude.{◌≡◌};
    ghost use Rattle.yse_compile.specs.Compiled.{of_plan};

    ghost from_gives = { λ no e. e ≡ of_plan no };

    fn from(no: PlanNo) -> CompNo {
        match no {
            PlanNo::Slots { needed, limit } => CompNo::Slots { needed, limit },
            PlanNo::Functions {
                port,
                needed,
                limit,
            } => CompNo::Functions {
                port,
                needed,
                limit,
            },
            PlanNo::Memory => CompNo::Memory,
        }
    }
}

/// Compiles a netlist for a machine, in a timing, at plain homes. The image shows, for every stimulus, the cells of
/// the netlist's reference simulation. A design that fits is refused for want of memory alone, and
/// one that is compiled fits.
pub fn compile(
    alloc: Global,
    net: &Netlist,
    machine: &Machine,
    timing: &Timing,
) -> Result<Compiled, CompNo>
    requires net { IsValid net.now }
    requires machine { IsValidMachine machine.now }
    requires timing { IsValidTiming timing.now }
    ensures shown { IfOk result (λ compiled. (stimulus : Stimulus) → ShowsReference net.now timing.now stimulus compiled.image) }
    ensures compiled { IfOk result (IsCompiled net.now machine.now timing.now) }
    ensures refused { IfErr result (IsRight net.now machine.now timing.now) }
    ensures fits { DesignFits net.now machine.now timing.now → IfErr result (λ refusal. refusal ≡ no.Memory) }
{
    refusals_are_right();
    matching_images_show();
    let nodes = items_of(alloc, net, timing)?;
    let housed = house(alloc, machine, nodes)?;
    let planned = plan(alloc, machine, housed)?;
    let routed = route(alloc, planned)?;
    let compiled = image_of(alloc, timing, routed)?;
    Ok(compiled)
}

/// Compiles a netlist for a machine, in a timing, at the homes of the choice. Better homes are used where
/// they fit the machine, and else the plain ones where they fit; slots and functions are refused with the
/// values of the plain homes.
pub fn compile_with(
    alloc: Global,
    net: &Netlist,
    machine: &Machine,
    timing: &Timing,
    choice: HomeChoice,
) -> Result<Chosen, CompNo>
    requires net { IsValid net.now }
    requires machine { IsValidMachine machine.now }
    requires timing { IsValidTiming timing.now }
    ensures shown { IfOk result (λ chosen. (stimulus : Stimulus) → ShowsReference net.now timing.now stimulus chosen.compiled.image) }
    ensures chosen { IfOk result (IsChosen net.now machine.now timing.now choice) }
    ensures refused { IfErr result (IsRight net.now machine.now timing.now) }
    ensures fits { FitsBy choice net.now machine.now timing.now → IfErr result (λ refusal. refusal ≡ no.Memory) }
    ensures fitted { OnOk result (FitsBy choice net.now machine.now timing.now) }
{
    refusals_are_right();
    matching_images_show();
    let nodes = items_of(alloc, net, timing)?;
    let housed = house(alloc, machine, nodes)?;
    let fitted = fit(alloc, machine, housed, choice)?;
    let counts = fitted.counts;
    let routed = route(alloc, fitted.planned)?;
    let compiled = image_of(alloc, timing, routed)?;
    Ok(Chosen {
        compiled,
        before: counts.before,
        after: counts.after,
        better: counts.better,
    })
}
