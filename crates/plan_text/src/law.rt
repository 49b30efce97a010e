//! Laws of reports: functions that do nothing, whose clauses hold of all plans.

ghost use Rattle.std.specs.Prelude.{◌≡◌, ℕ, List};
ghost use Rattle.net_defs.specs.declared.netlist.Netlist.{Netlist};
ghost use Rattle.node_defs.specs.declared.items.NodeNet.{NodeNet};
ghost use Rattle.plan_defs.specs.declared.plan.{Homes.Homes, Plan.Plan};
ghost use Rattle.plan_text.specs.{Counted.AreCrossings, Reports.IsReport};

/// A law: a plan has one report. It does nothing.
pub fn one_report()
    ensures { (net : Netlist) (nodes : NodeNet) (homes : Homes) (plan : Plan) (one other : List ℕ)
        → IsReport net nodes homes plan one → IsReport net nodes homes plan other → one ≡ other }
{}

/// A law: items at their homes have one number of crossings. It does nothing.
pub fn one_crossing_count()
    ensures { (nodes : NodeNet) (homes : Homes) (one other : ℕ)
        → AreCrossings nodes homes one → AreCrossings nodes homes other → one ≡ other }
{}
