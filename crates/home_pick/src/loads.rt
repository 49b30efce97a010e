//! How many nodes each logic port has and may have.

ghost use Rattle.std.specs.Prelude.{◌≡◌, ◌≤◌, ◌<◌, ℕ, IfOk, length};
ghost use Rattle.limits.specs.declared.TheConstants.{MAX_LOGIC};
ghost use Rattle.node_defs.specs.WellFormed.{IsWellFormed};
ghost use Rattle.plan_defs.specs.{Homes.AreHomes, Picks.node_count as nodes_of};
ghost use Rattle.home_pick.specs.{Better.bound_of as bound_from, Better.fair_share, Better.most_load, code.Work.AreLoads, code.Work.AreMost};

use machine_text::{Limited, Machine};
use node_defs::NodeNet;
use plan_defs::Homes;
use seen_list::{List, Memory};
use std::alloc::Global;

/// The number of nodes, latches among them.
pub(crate) fn node_count(nodes: &NodeNet) -> u32
    requires { IsWellFormed nodes.now }
    ensures { result ≡ nodes_of nodes.now }
{
    (nodes.items.len() as u32).saturating_sub(nodes.first_node)
}

/// How many nodes each logic port has.
pub(crate) fn loads_of(alloc: Global, nodes: &NodeNet, homes: &Homes) -> Result<List<u32>, Memory>
    requires nodes { IsWellFormed nodes.now }
    requires homes { AreHomes nodes.now homes.now }
    ensures { IfOk result (AreLoads nodes.now homes.now) }
{
    let mut loads = List::filled(alloc, 0, homes.logic as usize)?;
    let ports = homes.items.as_slice();
    'nodes: for k in 0..node_count(nodes) {
        let port = ports[(nodes.first_node + k) as usize] as usize;
        let load = loads.as_slice()[port];
        loads.set(port, load + 1);
    }
    Ok(loads)
}

/// What no port is filled past.
pub(crate) fn bound_of(nodes: &NodeNet, homes: &Homes, loads: &[u32]) -> u32
    requires nodes { IsWellFormed nodes.now }
    requires homes { AreHomes nodes.now homes.now }
    requires loads { AreLoads nodes.now homes.now loads.now }
    ensures { result ≡ bound_from nodes.now homes.now }
{
    let share = share(node_count(nodes), homes.logic);
    most_of(nodes, homes, loads).max(share)
}

/// The greatest load.
fn most_of(_nodes: &NodeNet, _homes: &Homes, loads: &[u32]) -> u32
    requires loads { AreLoads _nodes.now _homes.now loads.now }
    ensures { result ≡ most_load _nodes.now _homes.now }
{
    let mut most: u32 = 0;
    'ports: for p in 0..loads.len() {
        most = most.max(loads[p]);
    }
    most
}

/// A little more than an even share of so many nodes.
fn share(nodes: u32, logic: u32) -> u32
    requires nodes { nodes < 2147483648 }
    requires some { 1 ≤ logic }
    requires logic { logic ≤ MAX_LOGIC }
    ensures { result ≡ fair_share nodes logic }
{
    nodes / logic + nodes / (8 * logic) + 1
}

/// The most nodes that each of so many logic ports may have.
pub(crate) fn most_each(
    alloc: Global,
    machine: &Machine,
    bound: u32,
    logic: u32,
) -> Result<List<u32>, Memory>
    ensures { IfOk result (AreMost machine.now bound logic) }
{
    let mut most = List::new(alloc);
    'ports: for port in 0..logic {
        most.push(bound.min(machine.limit_at(Limited::Nodes, port)))?;
    }
    Ok(most)
}
