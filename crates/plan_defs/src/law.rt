//! Laws of homes, first-fit plans and the items that are planned: functions that do nothing, whose
//! clauses hold of all items and homes.

ghost use Rattle.std.specs.Prelude.{◌≡◌, ◌<◌, ◌≤◌, ℕ, length};
ghost use Rattle.limits.specs.declared.TheConstants.{MAX_NODES};
ghost use Rattle.net_defs.specs.{declared.netlist.Netlist.Netlist, declared.timing.Timing.Timing, Valid.IsValid};
ghost use Rattle.node_defs.specs.{declared.items.NodeNet.NodeNet, Order.AreItems, WellFormed.IsWellFormed};
ghost use Rattle.plan_defs.specs.{declared.plan.Homes.Homes, declared.plan.Plan.Plan, Homes.home_of, Picks.node_count, Readers.IsReader};
ghost use Rattle.plan_defs.specs.Slots.{slot_of, IsFirstFitPlan};

/// A law: no port sends twice in a slot. Two items of one slot at one home are one item. It does
/// nothing.
pub fn one_sending()
    ensures { (nodes : NodeNet) (homes : Homes) (plan : Plan) → IsFirstFitPlan nodes homes plan
        → (i j : ℕ) → i < length nodes.items → j < length nodes.items → home_of homes i ≡ home_of homes j
        → slot_of plan.slots i ≡ slot_of plan.slots j → i ≡ j }
{}

/// A law: no port receives twice in a slot. Two items of one slot that one port reads are one item. It
/// does nothing.
pub fn one_receipt()
    ensures { (nodes : NodeNet) (homes : Homes) (plan : Plan) → IsFirstFitPlan nodes homes plan
        → (i j port : ℕ) → i < length nodes.items → j < length nodes.items → IsReader nodes homes i port
        → IsReader nodes homes j port → slot_of plan.slots i ≡ slot_of plan.slots j → i ≡ j }
{}

/// A law: there is one first-fit plan of items at their homes. It does nothing.
pub fn one_plan()
    ensures { (nodes : NodeNet) (homes : Homes) (one other : Plan) → IsWellFormed nodes
        → IsFirstFitPlan nodes homes one → IsFirstFitPlan nodes homes other
        → (one.slots ≡ other.slots) × (one.needed ≡ other.needed) }
{}

/// A law: a first-fit plan needs no more slots than there are items. It does nothing.
pub fn few_slots()
    ensures { (nodes : NodeNet) (homes : Homes) (plan : Plan) → IsWellFormed nodes
        → IsFirstFitPlan nodes homes plan → plan.needed ≤ length nodes.items }
{}

/// A law: the slots that hold an item have no gap. Each slot up to that of an item is the slot of that
/// item or of one before it. It does nothing.
pub fn no_gap()
    ensures { (nodes : NodeNet) (homes : Homes) (plan : Plan) → IsWellFormed nodes
        → IsFirstFitPlan nodes homes plan → (i s : ℕ) → i < length nodes.items → s ≤ slot_of plan.slots i
        → (j : ℕ) × (j ≤ i) × (slot_of plan.slots j ≡ s) }
{}

/// A law: the items of a valid netlist are what planning asks of them. It does nothing.
pub fn items_are_well_formed()
    ensures { (net : Netlist) (timing : Timing) (nodes : NodeNet) → IsValid net → AreItems net timing nodes
        → IsWellFormed nodes }
{}

/// A law: the nodes of a valid netlist, latches among them, are no more than the greatest limit of a
/// logic port, which is the default of `nodes`: each stands for an operand of its own. It does nothing.
pub fn few_nodes()
    ensures { (net : Netlist) (timing : Timing) (nodes : NodeNet) → IsValid net → AreItems net timing nodes
        → node_count nodes ≤ MAX_NODES }
{}
