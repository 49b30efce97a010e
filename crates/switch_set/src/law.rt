//! A law of switches: a function that does nothing, whose clause holds of all items and switches.

ghost use Rattle.std.specs.Prelude.{◌≡◌, ℕ, List};
ghost use Rattle.node_defs.specs.declared.items.NodeNet.{NodeNet};
ghost use Rattle.plan_defs.specs.{declared.plan.Homes.Homes, declared.switch.Switch.Switch, Switches.IsSwitch};

/// A law: there is one switch for items at their homes in their slots. It does nothing.
pub fn one_switch()
    ensures { (nodes : NodeNet) (homes : Homes) (slots : List ℕ) (one other : Switch)
        → IsSwitch nodes homes slots one → IsSwitch nodes homes slots other → one ≡ other }
{}
