//! Laws of large netlists and their runs: functions that do nothing, whose clauses hold of all of them.

ghost use Rattle.std.specs.Prelude.{◌≡◌, ◌+◌, ◌<◌, ◌≤◌, ℕ, List, length};
ghost use Rattle.limits.specs.declared.TheConstants.{MAX_LARGE_GATES};
ghost use Rattle.large_run.specs.{Large.large_netlist, Runs.IsSummaryOf, Setting.large_machine, Setting.large_timing};
ghost use Rattle.machine_text.specs.declared.machine.Machine.{Machine};
ghost use Rattle.net_defs.specs.{declared.netlist.Netlist.Netlist, declared.timing.Timing.Timing, Valid.IsValid};
ghost use Rattle.node_defs.specs.{declared.items.NodeNet.NodeNet, Order.AreItems};
ghost use Rattle.plan_defs.specs.{declared.plan.Homes.Homes, Tables.UsesTables, Tables.table_limit};
ghost use Rattle.yse_compile.specs.Designs.{DesignFits, LacksFunctions};

use node_defs::law::one_list;
use node_map::law::items_exist;
use plan_defs::law::{few_slots, items_are_well_formed, one_plan};
use plan_text::law::one_crossing_count;
use rank_find::order_or_loop;
use ref_sim::one_simulation;
use yse_compile::law::{fits_or_refused, one_homes};

/// A law: the gates of one to four operands have at most 31 different tables, so the nodes of a netlist
/// use no more, and on a machine each of whose logic processors has room for so many, no design is refused
/// for its functions. It does nothing.
pub fn few_tables()
    ensures all { (net : Netlist) (timing : Timing) (nodes : NodeNet) → IsValid net → AreItems net timing nodes
        → length nodes.tables ≤ 31 }
    ensures used { (net : Netlist) (timing : Timing) (nodes : NodeNet) → IsValid net → AreItems net timing nodes
        → (homes : Homes) (port count : ℕ) → UsesTables nodes homes port count → count ≤ 31 }
    ensures never { (net : Netlist) (machine : Machine) (timing : Timing) → IsValid net
        → ((port : ℕ) → port < machine.logic → 31 ≤ table_limit machine port)
        → (port needed limit : ℕ) → LacksFunctions net machine timing port needed limit → ⊥ }
{}

/// A law: a large netlist has no more items than inputs and gates. It does nothing.
pub fn few_items()
    ensures { (gates : ℕ) (timing : Timing) (nodes : NodeNet) → gates ≤ MAX_LARGE_GATES
        → AreItems (large_netlist gates) timing nodes → length nodes.items ≤ 8 + gates }
{}

/// A law: a large netlist fits its machine. It does nothing.
pub fn large_fits()
    ensures { (gates : ℕ) → gates ≤ MAX_LARGE_GATES → DesignFits (large_netlist gates) large_machine large_timing }
{
    order_or_loop();
    items_exist();
    fits_or_refused();
    items_are_well_formed();
    few_slots();
    few_items();
    few_tables();
}

/// A law: the run of a large netlist has one summary. It does nothing.
pub fn one_summary()
    ensures some { (gates cycles : ℕ) → gates ≤ MAX_LARGE_GATES → (output : List ℕ) × IsSummaryOf gates cycles output }
    ensures one { (gates cycles : ℕ) (one other : List ℕ) → gates ≤ MAX_LARGE_GATES
        → IsSummaryOf gates cycles one → IsSummaryOf gates cycles other → one ≡ other }
{
    large_fits();
    one_list();
    one_homes();
    items_are_well_formed();
    one_plan();
    one_crossing_count();
    one_simulation();
}
