//! The plan of items on a machine, or why there is none.

ghost use Rattle.std.specs.Prelude.{◌≡◌, ◌≤◌, ◌<◌, ℕ, IfOk, IfErr, length};
ghost use Rattle.node_defs.specs.WellFormed.{IsWellFormed};
ghost use Rattle.plan_defs.specs.{Homes.AreHomes, Slots.IsFirstFitPlan, Tables.Fits, Tables.slot_limit as slots_of, Tables.table_limit as tables_of};
ghost use Rattle.slot_plan.specs.Refusals.{IsRight};
ghost use Rattle.slot_plan.specs.declared.fit.PlanNo.TheVariants as no;

use crate::planning::slots;
use crate::tables::{first_crowded, table_counts, table_limit};
use machine_text::Machine;
use node_defs::NodeNet;
use plan_defs::{Homes, Plan};
use seen_list::Memory;
use std::alloc::Global;

/// Why there is no plan.
#[derive(Clone, Copy)]
pub enum PlanNo {
    /// A turn wants more slots than the machine has.
    Slots { needed: u32, limit: u32 },
    /// The slots suffice, and this port is the first whose nodes use more different tables than it
    /// holds.
    Functions { port: u32, needed: u32, limit: u32 },
    /// There was not enough memory to plan.
    Memory,
}

impl From<Memory> for PlanNo {
    ghost use Rattle.std.specs.Prelude.{◌≡◌};
    ghost use Rattle.slot_plan.specs.declared.fit.PlanNo.TheVariants.{Memory as NoMemory};

    ghost from_gives = { λ _ e. e ≡ NoMemory };

    fn from(_refused: Memory) -> PlanNo {
        PlanNo::Memory
    }
}

/// The first-fit plan of items at their homes, if it fits the machine. A design of at most as many
/// items as a turn has slots, with at most as many tables as each port holds, is refused for want of
/// memory alone, on any number of ports.
pub fn first_fit(
    alloc: Global,
    nodes: &NodeNet,
    homes: &Homes,
    machine: &Machine,
) -> Result<Plan, PlanNo>
    requires nodes { IsWellFormed nodes.now }
    requires homes { AreHomes nodes.now homes.now }
    requires machine { (homes.now.logic ≡ machine.now.logic) × (homes.now.array ≡ machine.now.array) }
    ensures plan { IfOk result (IsFirstFitPlan nodes.now homes.now) }
    ensures fits { IfOk result (Fits nodes.now homes.now machine.now) }
    ensures needed { IfOk result (λ plan. plan.needed ≤ length nodes.now.items) }
    ensures refused { IfErr result (IsRight nodes.now homes.now machine.now) }
    ensures law { length nodes.now.items ≤ slots_of machine.now
        → ((port : ℕ) → port < homes.now.logic → length nodes.now.tables ≤ tables_of machine.now port)
        → IfErr result (λ refusal. refusal ≡ no.Memory) }
{
    let plan = slots(alloc, nodes, homes)?;
    let limit = slot_limit(machine);
    if plan.needed > limit {
        return Err(PlanNo::Slots {
            needed: plan.needed,
            limit,
        });
    }
    let counts = table_counts(alloc, nodes, homes)?;
    match first_crowded(counts.as_slice(), nodes, homes, machine) {
        None => Ok(plan),
        Some(crowded) => Err(PlanNo::Functions {
            port: crowded.port,
            needed: crowded.needed,
            limit: table_limit(machine, crowded.port),
        }),
    }
}

/// The most slots of a turn.
fn slot_limit(machine: &Machine) -> u32
    ensures { result ≡ slots_of machine.now }
{
    machine.slots
}
