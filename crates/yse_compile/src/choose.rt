//! The homes that a choice uses, and the plan by which they fit.

ghost use Rattle.std.specs.Prelude.{◌≡◌, ◌≤◌, ◌⊎◌, IfOk, IfErr, IfSome, IsNone};
ghost use Rattle.home_pick.specs.Crossings.{crossings};
ghost use Rattle.limits.specs.declared.TheConstants.{MAX_SLOTS};
ghost use Rattle.machine_text.specs.Machines.{IsValid as IsValidMachine};
ghost use Rattle.net_defs.specs.declared.homes.HomeChoice.TheVariants.{Plain, Better};
ghost use Rattle.node_defs.specs.WellFormed.{IsWellFormed};
ghost use Rattle.plan_defs.specs.{Homes.AreHomes, Slots.IsFirstFitPlan, Tables.Fits};
ghost use Rattle.slot_plan.specs.Refusals.{IsRight};
ghost use Rattle.slot_plan.specs.declared.fit.PlanNo.TheVariants as no;
ghost use Rattle.yse_compile.specs.code.Passes.{AreHomesOn, AreHoused, IsBestUnfit, IsFitted};
ghost use Rattle.yse_compile.specs.Chosen.{HomesFit};

use crate::compiler::Compiled;
use crate::law::planned_or_refused;
use crate::passes::{Housed, Planned, plan};
use home_pick::better;
use home_pick::law::crossings_are_readers;
use machine_text::Machine;
use net_defs::HomeChoice;
use node_defs::NodeNet;
use plan_defs::{Homes, Plan};
use plan_text::crossings as crossing_count;
use seen_list::Memory;
use slot_plan::{PlanNo, first_fit};
use std::alloc::Global;

/// A compiled design, and which homes it has.
#[derive(Drop)]
pub struct Chosen {
    /// The design at the homes that are used.
    pub compiled: Compiled,
    /// The crossings of the plain homes.
    pub before: u64,
    /// Those of the better homes, used or not, where better homes are asked, and else of the plain ones.
    pub after: u64,
    /// Whether the better homes are used.
    pub better: bool,
}

/// What is told of homes: the counts of their crossings, and whether they are the better ones.
#[derive(Clone, Copy)]
pub(crate) struct Counts {
    pub(crate) before: u64,
    pub(crate) after: u64,
    pub(crate) better: bool,
}

/// What is planned at the homes of a choice.
#[derive(Drop)]
pub(crate) struct Fitted {
    pub(crate) planned: Planned,
    pub(crate) counts: Counts,
}

/// The items at the homes of the choice, in their plan.
pub(crate) fn fit(
    alloc: Global,
    machine: &Machine,
    housed: Housed,
    choice: HomeChoice,
) -> Result<Fitted, PlanNo>
    requires machine { IsValidMachine machine.now }
    requires housed { AreHoused machine.now housed }
    ensures fitted { IfOk result (IsFitted choice machine.now housed) }
    ensures refused { IfErr result (IsRight housed.nodes housed.homes machine.now) }
    ensures unfit { IfErr result (λ refusal. (refusal ≡ no.Memory) ⊎ IsBestUnfit choice housed.nodes machine.now housed.homes) }
{
    match choice {
        HomeChoice::Plain => at_plain(alloc, machine, housed),
        HomeChoice::Better => at_better(alloc, machine, housed),
    }
}

/// The items at their plain homes.
fn at_plain(alloc: Global, machine: &Machine, housed: Housed) -> Result<Fitted, PlanNo>
    requires machine { IsValidMachine machine.now }
    requires housed { AreHoused machine.now housed }
    ensures fitted { IfOk result (IsFitted Plain machine.now housed) }
    ensures refused { IfErr result (IsRight housed.nodes housed.homes machine.now) }
{
    let count = count_of(alloc, &housed)?;
    let planned = plan(alloc, machine, housed)?;
    Ok(Fitted {
        planned,
        counts: Counts {
            before: count,
            after: count,
            better: false,
        },
    })
}

/// The crossings of plain homes.
fn count_of(alloc: Global, housed: &Housed) -> Result<u64, Memory>
    requires formed { IsWellFormed housed.now.nodes }
    requires homes { AreHomes housed.now.nodes housed.now.homes }
    ensures { IfOk result (λ count. count ≡ crossings housed.now.nodes housed.now.homes) }
{
    crossings_are_readers();
    crossing_count(alloc, &housed.nodes, &housed.homes)
}

/// The items at better homes where they fit, and else at the plain ones.
fn at_better(alloc: Global, machine: &Machine, housed: Housed) -> Result<Fitted, PlanNo>
    requires machine { IsValidMachine machine.now }
    requires housed { AreHoused machine.now housed }
    ensures fitted { IfOk result (IsFitted Better machine.now housed) }
    ensures refused { IfErr result (IsRight housed.nodes housed.homes machine.now) }
    ensures unfit { IfErr result (λ refusal. (refusal ≡ no.Memory) ⊎ IsBestUnfit Better housed.nodes machine.now housed.homes) }
{
    // Drops by hand save 8 s of proof.
    let improved = match better(alloc, &housed.nodes, &housed.homes, machine) {
        Ok(improved) => improved,
        Err(_) => {
            drop(housed);
            return Err(PlanNo::Memory);
        }
    };
    let counts = Counts {
        before: improved.before,
        after: improved.after,
        better: true,
    };
    match plan_if_fits(alloc, machine, &housed.nodes, &improved.homes) {
        Ok(Some(plan)) => {
            drop(housed.homes);
            let housed = Housed {
                nodes: housed.nodes,
                homes: improved.homes,
            };
            let planned = Planned { housed, plan };
            Ok(Fitted { planned, counts })
        }
        Ok(None) => {
            drop(improved.homes);
            let planned = plan(alloc, machine, housed)?;
            let counts = Counts {
                better: false,
                ..counts
            };
            Ok(Fitted { planned, counts })
        }
        Err(_) => {
            drop(improved);
            drop(housed);
            Err(PlanNo::Memory)
        }
    }
}

/// The plan of the items at these homes, or none where it does not fit.
fn plan_if_fits(
    alloc: Global,
    machine: &Machine,
    nodes: &NodeNet,
    homes: &Homes,
) -> Result<Option<Plan>, Memory>
    requires nodes { IsWellFormed nodes.now }
    requires homes { AreHomesOn nodes.now machine.now homes.now }
    ensures plan { IfOk result (λ found. IfSome found (IsFirstFitPlan nodes.now homes.now)) }
    ensures fits { IfOk result (λ found. IfSome found (Fits nodes.now homes.now machine.now)) }
    ensures none { IfOk result (λ found. IsNone found → HomesFit nodes.now machine.now homes.now → ⊥) }
{
    planned_or_refused();
    match first_fit(alloc, nodes, homes, machine) {
        Ok(plan) => Ok(Some(plan)),
        Err(PlanNo::Slots { .. }) => Ok(None),
        Err(PlanNo::Functions { .. }) => Ok(None),
        Err(PlanNo::Memory) => Err(Memory),
    }
}
