//! Laws of designs and machines: functions that do nothing, whose clauses hold of all of them.

ghost use Rattle.std.specs.Prelude.{◌≡◌, ◌⊎◌, ℕ, All};
ghost use Rattle.event_defs.specs.Linked.{AreLinkedAlike};
ghost use Rattle.image_build.specs.{Built.IsBuilt, Plans.IsPlanned};
ghost use Rattle.image_defs.specs.declared.{file.Claims.Claims, image.Image.Image};
ghost use Rattle.machine_text.specs.{declared.machine.Machine.Machine, Machines.IsValid as IsValidMachine};
ghost use Rattle.home_pick.specs.{Better.IsBetter, declared.pick.HomeNo.HomeNo, Refusals.IsRight as LacksHomes};
ghost use Rattle.net_defs.specs.declared.{homes.HomeChoice.HomeChoice, netlist.Netlist.Netlist, timing.Timing.Timing};
ghost use Rattle.net_defs.specs.Valid.{IsValid, IsValidTiming};
ghost use Rattle.node_defs.specs.{declared.items.NodeNet.NodeNet, Order.IsMapped, WellFormed.IsWellFormed};
ghost use Rattle.func_table.specs.Entries.{HasWords};
ghost use Rattle.plan_defs.specs.{declared.plan.Homes.Homes, declared.plan.Plan.Plan, declared.switch.Switch.Switch, Homes.AreHomes};
ghost use Rattle.plan_defs.specs.{Picks.ArePicked, Picks.FindsNoPort, Picks.HasTooManyNodes, Slots.IsFirstFitPlan, Switches.IsSwitch, Tables.UsesTables};
ghost use Rattle.slot_plan.specs.{declared.fit.PlanNo.PlanNo, Refusals.IsCrowded, Refusals.IsLong, Refusals.IsRight as LacksPlan};
ghost use Rattle.slot_plan.specs.declared.fit.PlanNo.TheVariants as no_plan;
ghost use Rattle.yse_compile.specs.Chosen.{FitsBy, FitsEither, HomesFit, IsChosen, IsDesign, IsUsed};
ghost use Rattle.yse_compile.specs.Compiled.{IsCompiled, IsRight, IsOverfull, of_homes, of_plan};
ghost use Rattle.yse_compile.specs.Designs.{IsAcyclic, DesignFits, LacksBits, LacksNodes, LacksSlots, LacksFunctions};
ghost use Rattle.yse_compile.specs.{Claims.AreClaimsOf, declared.choose.Chosen.Chosen, declared.compiler.CompNo.CompNo, declared.compiler.Compiled.Compiled};
ghost use Rattle.yse_compile.specs.code.Passes.{IsBestUnfit};
ghost use Rattle.yse_compile.specs.declared.compiler.CompNo.TheVariants as no;

use home_pick::law::{housed_or_refused, one_better, one_housing, some_better};
use node_defs::law::one_list;
use plan_defs::law::{items_are_well_formed, one_plan};
use switch_set::law::one_switch;

/// A law: a netlist has one list of homes on a machine. It does nothing.
pub fn one_homes()
    ensures { (net : Netlist) (machine : Machine) (timing : Timing) (nodes others : NodeNet)
        → IsMapped net timing nodes → IsMapped net timing others
        → (homes other_homes : Homes) → ArePicked nodes machine homes
        → ArePicked others machine other_homes → homes ≡ other_homes }
{
    one_list();
}

/// A law: on a machine there are homes that are picked for items, or a memory is the first that
/// finds no port, or the nodes are more than the logic ports hold. It does nothing.
pub fn homes_or_refusal()
    ensures { (nodes : NodeNet) (machine : Machine) → IsWellFormed nodes → IsValidMachine machine
        → ((homes : Homes) × ArePicked nodes machine homes × AreHomes nodes homes)
        ⊎ (((block needed left : ℕ) × FindsNoPort nodes machine block needed left)
        ⊎ ((needed limit : ℕ) × HasTooManyNodes nodes machine needed limit)) }
{}

/// A law: items at their homes have a first-fit plan. It does nothing.
pub fn plan_exists()
    ensures { (nodes : NodeNet) (homes : Homes) → IsWellFormed nodes → AreHomes nodes homes
        → (plan : Plan) × IsFirstFitPlan nodes homes plan }
{}

/// A law: items at their homes in the slots of their first-fit plan have a switch. It does nothing.
pub fn switch_exists()
    ensures { (nodes : NodeNet) (homes : Homes) (plan : Plan) → IsWellFormed nodes → AreHomes nodes homes
        → IsFirstFitPlan nodes homes plan → (switch : Switch) × IsSwitch nodes homes plan.slots switch }
{}

/// A law: the tables of a port's nodes have a number. It does nothing.
pub fn tables_counted()
    ensures { (nodes : NodeNet) (homes : Homes) → IsWellFormed nodes
        → (port : ℕ) → (count : ℕ) × UsesTables nodes homes port count }
{}

/// A law: items at their homes have a first-fit plan that fits a machine, or one of the two refusals is
/// right, and not both. It does nothing.
pub fn planned_or_refused()
    ensures some { (nodes : NodeNet) (machine : Machine) (homes : Homes) → IsWellFormed nodes → AreHomes nodes homes
        → HomesFit nodes machine homes
        ⊎ (((needed limit : ℕ) × IsLong nodes homes machine needed limit)
        ⊎ ((port needed limit : ℕ) × IsCrowded nodes homes machine port needed limit)) }
    ensures slots { (nodes : NodeNet) (machine : Machine) (homes : Homes) → IsWellFormed nodes → HomesFit nodes machine homes
        → (needed limit : ℕ) → IsLong nodes homes machine needed limit → ⊥ }
    ensures functions { (nodes : NodeNet) (machine : Machine) (homes : Homes) → HomesFit nodes machine homes
        → (port needed limit : ℕ) → IsCrowded nodes homes machine port needed limit → ⊥ }
{
    one_plan();
    plan_exists();
    tables_counted();
}

/// A law: without a loop, a design fits a machine, or a refusal is right which says that the
/// machine is too small. It does nothing.
pub fn fits_or_refused()
    ensures { (net : Netlist) (machine : Machine) (timing : Timing) (nodes : NodeNet) → IsValid net
        → IsValidMachine machine → IsAcyclic net timing → IsMapped net timing nodes
        → DesignFits net machine timing
        ⊎ ((refusal : CompNo) × IsRight net machine timing refusal × IsOverfull refusal) }
{
    items_are_well_formed();
    homes_or_refusal();
    planned_or_refused();
}

/// A law: where a memory finds no port, the items have no homes. It does nothing.
pub fn bits_first()
    ensures { (net : Netlist) (machine : Machine) (timing : Timing) (nodes : NodeNet)
        → (homes : Homes) → IsMapped net timing nodes → ArePicked nodes machine homes
        → (block needed left : ℕ) → LacksBits net machine timing block needed left → ⊥ }
{
    one_list();
    housed_or_refused();
}

/// A law: where a memory finds no port, the nodes are not spoken of. It does nothing.
pub fn bits_before_nodes()
    ensures { (net : Netlist) (machine : Machine) (timing : Timing)
        → (block bits left needed limit : ℕ) → LacksBits net machine timing block bits left
        → LacksNodes net machine timing needed limit → ⊥ }
{
    one_list();
    housed_or_refused();
}

/// A law: where the nodes are too many, the items have no homes. It does nothing.
pub fn nodes_first()
    ensures { (net : Netlist) (machine : Machine) (timing : Timing) (nodes : NodeNet)
        → (homes : Homes) → IsMapped net timing nodes → ArePicked nodes machine homes
        → (needed limit : ℕ) → LacksNodes net machine timing needed limit → ⊥ }
{
    one_list();
}

/// A law: where a plan has too many slots, no port's tables are spoken of. It does nothing.
pub fn slots_first()
    ensures { (net : Netlist) (machine : Machine) (timing : Timing) → IsValid net
        → (needed limit port tables most : ℕ) → LacksSlots net machine timing needed limit
        → LacksFunctions net machine timing port tables most → ⊥ }
{
    one_list();
    one_homes();
    items_are_well_formed();
    one_plan();
}

/// A law: where a design fits, no memory is without a port. It does nothing.
pub fn fits_bits()
    ensures { (net : Netlist) (machine : Machine) (timing : Timing) → DesignFits net machine timing
        → (block needed left : ℕ) → LacksBits net machine timing block needed left → ⊥ }
{
    bits_first();
}

/// A law: where a design fits, its nodes are not too many. It does nothing.
pub fn fits_nodes()
    ensures { (net : Netlist) (machine : Machine) (timing : Timing) → DesignFits net machine timing
        → (needed limit : ℕ) → LacksNodes net machine timing needed limit → ⊥ }
{
    nodes_first();
}

/// A law: where a design fits, its plan needs no more slots than a turn has. It does nothing.
pub fn fits_slots()
    ensures { (net : Netlist) (machine : Machine) (timing : Timing) → IsValid net
        → DesignFits net machine timing
        → (needed limit : ℕ) → LacksSlots net machine timing needed limit → ⊥ }
{
    one_list();
    one_homes();
    items_are_well_formed();
    planned_or_refused();
}

/// A law: where a design fits, no port's nodes use too many tables. It does nothing.
pub fn fits_functions()
    ensures { (net : Netlist) (machine : Machine) (timing : Timing) → DesignFits net machine timing
        → (port needed limit : ℕ) → LacksFunctions net machine timing port needed limit → ⊥ }
{
    one_list();
    one_homes();
    planned_or_refused();
}

/// A law: one memory is the first that finds no port, its bits are one number, and so are those
/// that are left. It does nothing.
pub fn one_lack()
    ensures { (net : Netlist) (machine : Machine) (timing : Timing)
        → (block needed left other_block other_needed other_left : ℕ)
        → LacksBits net machine timing block needed left
        → LacksBits net machine timing other_block other_needed other_left
        → (block ≡ other_block) × (needed ≡ other_needed) × (left ≡ other_left) }
{
    one_list();
    one_housing();
}

/// A law: nodes that are too many are one number, and so are those that all logic ports hold. It does
/// nothing.
pub fn one_many()
    ensures { (net : Netlist) (machine : Machine) (timing : Timing)
        → (needed limit other_needed other_limit : ℕ)
        → LacksNodes net machine timing needed limit
        → LacksNodes net machine timing other_needed other_limit
        → (needed ≡ other_needed) × (limit ≡ other_limit) }
{
    one_list();
}

/// A law: a plan of too many slots needs one number of them. It does nothing.
pub fn one_length()
    ensures { (net : Netlist) (machine : Machine) (timing : Timing) → IsValid net
        → (needed limit other_needed other_limit : ℕ)
        → LacksSlots net machine timing needed limit
        → LacksSlots net machine timing other_needed other_limit
        → (needed ≡ other_needed) × (limit ≡ other_limit) }
{
    one_list();
    one_homes();
    items_are_well_formed();
    one_plan();
}

/// A law: one port is the first whose nodes use too many tables, and they are one number. It does
/// nothing.
pub fn one_crowd()
    ensures { (net : Netlist) (machine : Machine) (timing : Timing)
        → (port needed limit other_port other_needed other_limit : ℕ)
        → LacksFunctions net machine timing port needed limit
        → LacksFunctions net machine timing other_port other_needed other_limit
        → (port ≡ other_port) × (needed ≡ other_needed) × (limit ≡ other_limit) }
{
    one_list();
    one_homes();
}

/// A law: of the refusals which say that a machine is too small for a design, one is right. It does
/// nothing.
pub fn one_refusal()
    ensures { (net : Netlist) (machine : Machine) (timing : Timing) → IsValid net
        → (one other : CompNo) → IsRight net machine timing one → IsRight net machine timing other
        → IsOverfull one → IsOverfull other → one ≡ other }
{
    one_lack();
    bits_first();
    bits_before_nodes();
    one_many();
    nodes_first();
    one_length();
    slots_first();
    one_crowd();
}

/// A law: the compiled design of a netlist is a design. It does nothing.
pub fn compiled_is_design()
    ensures { (net : Netlist) (machine : Machine) (timing : Timing) (compiled : Compiled) → IsValid net
        → IsValidMachine machine → IsCompiled net machine timing compiled → IsDesign net machine timing compiled }
{
    items_are_well_formed();
}

/// A law: where a design fits at plain homes or at better ones, its items have homes, and they fit at the
/// plain homes that are picked for them or at better ones from there. It does nothing.
pub fn either_fits()
    ensures plain { (net : Netlist) (machine : Machine) (timing : Timing) → DesignFits net machine timing
        → FitsEither net machine timing }
    ensures bits { (net : Netlist) (machine : Machine) (timing : Timing) → FitsEither net machine timing
        → (block needed left : ℕ) → LacksBits net machine timing block needed left → ⊥ }
    ensures nodes { (net : Netlist) (machine : Machine) (timing : Timing) → FitsEither net machine timing
        → (needed limit : ℕ) → LacksNodes net machine timing needed limit → ⊥ }
    ensures fit { (net : Netlist) (machine : Machine) (timing : Timing) (nodes : NodeNet) (plain best : Homes)
        → IsValid net → IsMapped net timing nodes → ArePicked nodes machine plain
        → IsBetter nodes machine plain best → FitsEither net machine timing
        → HomesFit nodes machine plain ⊎ HomesFit nodes machine best }
{
    one_list();
    one_homes();
    one_better();
    bits_first();
    nodes_first();
}

/// A law: a refusal of homes or of a plan is right of the whole design, and of one that fits it is for want of
/// memory. It does nothing.
pub(crate) fn refusals_are_right()
    ensures either { (choice : HomeChoice) (net : Netlist) (machine : Machine) (timing : Timing) → FitsBy choice net machine timing
        → FitsEither net machine timing }
    ensures homes { (net : Netlist) (machine : Machine) (timing : Timing) (nodes : NodeNet) → IsAcyclic net timing
        → IsMapped net timing nodes → (refusal : HomeNo) → LacksHomes nodes machine refusal
        → IsRight net machine timing (of_homes refusal) × (FitsEither net machine timing → of_homes refusal ≡ no.Memory) }
    ensures plan { (choice : HomeChoice) (net : Netlist) (machine : Machine) (timing : Timing) (nodes : NodeNet) (plain : Homes)
        → IsValid net → IsAcyclic net timing → IsMapped net timing nodes → ArePicked nodes machine plain
        → (refusal : PlanNo) → LacksPlan nodes plain machine refusal
        → (refusal ≡ no_plan.Memory) ⊎ IsBestUnfit choice nodes machine plain
        → IsRight net machine timing (of_plan refusal) × (FitsBy choice net machine timing → of_plan refusal ≡ no.Memory) }
{
    items_are_well_formed();
    planned_or_refused();
    fits_slots();
    fits_functions();
    either_fits();
}

/// A law: without a loop, a design fits a machine by a choice of homes, or it does not and a refusal is
/// right which says that the machine is too small. It does nothing.
pub fn fits_by_or_refused()
    ensures { (choice : HomeChoice) (net : Netlist) (machine : Machine) (timing : Timing) (nodes : NodeNet)
        → IsValid net → IsValidMachine machine → IsAcyclic net timing → IsMapped net timing nodes
        → FitsBy choice net machine timing
        ⊎ ((refusal : CompNo) × IsRight net machine timing refusal × IsOverfull refusal × (FitsBy choice net machine timing → ⊥)) }
{
    items_are_well_formed();
    fits_or_refused();
    planned_or_refused();
    fits_bits();
    fits_nodes();
    fits_slots();
    fits_functions();
    either_fits();
    some_better();
}

/// A law: by a choice of homes a netlist has one design's homes on a machine, with one number of crossings
/// before and after. It does nothing.
pub fn one_choice()
    ensures { (choice : HomeChoice) (net : Netlist) (machine : Machine) (timing : Timing) (one other : Chosen)
        → IsValid net → IsChosen net machine timing choice one → IsChosen net machine timing choice other
        → (one.compiled.homes ≡ other.compiled.homes) × (one.before ≡ other.before)
        × (one.after ≡ other.after) × (one.better ≡ other.better) }
{
    one_use();
}

/// A law: the same of homes that a choice uses and that fit, whatever is built at them. It does nothing.
pub fn one_use()
    ensures { (choice : HomeChoice) (net : Netlist) (machine : Machine) (timing : Timing) (one other : Chosen)
        (plain plain_too : Homes) → IsValid net
        → IsMapped net timing one.compiled.nodes → IsMapped net timing other.compiled.nodes
        → ArePicked one.compiled.nodes machine plain → ArePicked other.compiled.nodes machine plain_too
        → IsUsed choice one.compiled.nodes machine plain one
        → IsUsed choice other.compiled.nodes machine plain_too other
        → HomesFit one.compiled.nodes machine one.compiled.homes
        → HomesFit other.compiled.nodes machine other.compiled.homes
        → (one.compiled.homes ≡ other.compiled.homes) × (one.before ≡ other.before)
        × (one.after ≡ other.after) × (one.better ≡ other.better) }
{
    one_list();
    one_homes();
    one_better();
}

/// A law: by a choice of homes a netlist has one design on a machine: one list of items, homes, plan and switch. It
/// does nothing.
pub(crate) fn one_design()
    ensures { (choice : HomeChoice) (net : Netlist) (machine : Machine) (timing : Timing) (one other : Chosen)
        → IsValid net → IsChosen net machine timing choice one → IsChosen net machine timing choice other
        → (one.compiled.nodes ≡ other.compiled.nodes) × (one.compiled.homes ≡ other.compiled.homes)
        × (one.compiled.plan ≡ other.compiled.plan) × (one.compiled.switch ≡ other.compiled.switch) }
{
    one_list();
    one_choice();
    items_are_well_formed();
    one_plan();
    one_switch();
}

/// A law: the ports of the images that a netlist is compiled to by one choice of homes send and receive
/// alike. It does nothing.
pub fn one_linking_chosen()
    ensures { (choice : HomeChoice) (net : Netlist) (machine : Machine) (timing : Timing) (one other : Chosen)
        → IsValid net → IsChosen net machine timing choice one → IsChosen net machine timing choice other
        → AreLinkedAlike one.compiled.image other.compiled.image }
{
    one_design();
}

/// A law: for items at their homes in their first-fit plan, with the switch's settings for them, there is an image
/// that is built of them, and the claims of its places. It does nothing.
pub fn images_exist()
    ensures { (nodes : NodeNet) (homes : Homes) (plan : Plan) (switch : Switch) (timing : Timing)
        → IsPlanned nodes homes plan → All HasWords nodes.tables → IsSwitch nodes homes plan.slots switch → IsValidTiming timing
        → (image : Image) × (claims : Claims) × IsBuilt nodes homes plan switch timing image
        × AreClaimsOf (record { nodes = nodes; homes = homes; plan = plan; switch = switch; image = image }) claims }
{}

/// A law: by a choice of homes a netlist is compiled to one image on a machine, with one list of claims, and so to
/// one text. It does nothing.
pub fn one_image()
    ensures { (choice : HomeChoice) (net : Netlist) (machine : Machine) (timing : Timing) (one other : Chosen)
        (claims claims_too : Claims) → IsValid net
        → IsChosen net machine timing choice one → IsChosen net machine timing choice other
        → AreClaimsOf one.compiled claims → AreClaimsOf other.compiled claims_too
        → (one.compiled.image ≡ other.compiled.image) × (claims ≡ claims_too) }
{
    one_design();
    one_linking_chosen();
}

/// A law: where a design fits a machine by a choice of homes, there is a design that has them, and the claims of the
/// places of its image. It does nothing.
pub fn designs_exist()
    ensures { (choice : HomeChoice) (net : Netlist) (machine : Machine) (timing : Timing) (nodes : NodeNet)
        → IsValid net → IsValidMachine machine → IsValidTiming timing → IsMapped net timing nodes
        → All HasWords nodes.tables → FitsBy choice net machine timing
        → (chosen : Chosen) × (claims : Claims) × IsChosen net machine timing choice chosen × AreClaimsOf chosen.compiled claims }
{
    one_list();
    items_are_well_formed();
    planned_or_refused();
    switch_exists();
    images_exist();
    some_better();
    one_better();
}
