//! Nodes that move one after another.

ghost use Rattle.std.specs.Prelude.{◌≡◌, ◌≢◌, ◌+◌, ◌≤◌, ◌<◌, ℕ, OnOk, length, slice_index};
ghost use Rattle.node_defs.specs.WellFormed.{IsWellFormed};
ghost use Rattle.home_pick.specs.Better.{best_port, bound_of, pass, settled, IsBetter};
ghost use Rattle.home_pick.specs.{Bags.where_at, Crossings.moved, code.Uses.AreTakes, code.Work.AreMost, code.Working.IsLifted, code.Working.IsWork};

use crate::bags::{Entry, bag_of};
use crate::loads::node_count;
use crate::pulls::{Pulls, strongest, weigh};
use crate::spread::{mark_all, unmark_all};
use crate::uses::{give_bag, take_bag};
use machine_text::Machine;
use node_defs::NodeNet;
use plan_defs::Homes;
use seen_list::{List, Memory};

/// Homes, and what is counted of them.
#[derive(Drop)]
pub(crate) struct Work {
    pub(crate) homes: Homes,
    /// For each item the ports that use it, each at how many places.
    pub(crate) uses: List<List<Entry>>,
    /// The nodes at each logic port.
    pub(crate) loads: List<u32>,
    /// Items that are marked are used at each logic port.
    pub(crate) spread: List<bool>,
    /// Room for what pulls a node to each logic port.
    pub(crate) pulls: Pulls,
    /// The crossings.
    pub(crate) count: u64,
}

/// Takes the uses by node v away, and weighs what pulls it.
fn lift(work: &mut Work, nodes: &NodeNet, takes: &List<List<Entry>>, v: usize) -> Result<(), Memory>
    requires nodes { IsWellFormed nodes.now }
    requires work { IsWork nodes.now work.old }
    requires takes { AreTakes nodes.now takes.now }
    requires node { v < length nodes.now.items }
    ensures lifted { OnOk result (IsLifted nodes.now v work.new) }
    ensures homes { OnOk result (work.new.homes ≡ work.old.homes) }
{
    let own = work.homes.items.as_slice()[v];
    let taken = bag_of(takes, v);
    take_bag(&mut work.uses, taken, own);
    unmark_all(&mut work.spread, &work.uses, taken, own);
    let spread = work.spread.as_slice();
    weigh(
        &mut work.pulls,
        nodes,
        &work.homes,
        takes,
        &work.uses,
        spread,
        v,
    )?;
    Ok(())
}

/// The best port for node v.
fn choice(
    work: &Work,
    nodes: &NodeNet,
    _machine: &Machine,
    _bound: u32,
    most: &[u32],
    v: usize,
) -> usize
    requires nodes { IsWellFormed nodes.now }
    requires work { IsLifted nodes.now v work.now }
    requires most { AreMost _machine.now _bound work.now.homes.logic most.now }
    requires node { (nodes.now.first_node ≤ v) × (v < length nodes.now.items) }
    ensures best { result ≡ best_port nodes.now _machine.now _bound work.now.homes v }
    ensures within { result < work.now.homes.logic }
{
    let own = work.homes.items.as_slice()[v] as usize;
    strongest(&work.pulls, work.loads.as_slice(), most, own)
}

/// Puts node v at a port.
fn put(
    work: &mut Work,
    nodes: &NodeNet,
    takes: &List<List<Entry>>,
    v: usize,
    port: usize,
) -> Result<(), Memory>
    requires nodes { IsWellFormed nodes.now }
    requires work { IsLifted nodes.now v work.old }
    requires takes { AreTakes nodes.now takes.now }
    requires node { (nodes.now.first_node ≤ v) × (v < length nodes.now.items) }
    requires port { port < work.old.homes.logic }
    ensures work { OnOk result (IsWork nodes.now work.new) }
    ensures homes { OnOk result (work.new.homes ≡ moved work.old.homes v port) }
{
    let own = work.homes.items.as_slice()[v];
    let taken = bag_of(takes, v);
    give_bag(&mut work.uses, taken, port as u32)?;
    let pulled = work.pulls.at.as_slice()[own as usize];
    let pulls = work.pulls.at.as_slice()[port];
    work.count = recount(work.count, pulled, pulls);
    shift(&mut work.loads, own as usize, port);
    work.homes.items.set(v, port as u32);
    Ok(())
}

/// The crossings after a move, by what pulled the node to its old port and pulls it to its new one.
fn recount(count: u64, pulled: u32, pulls: u32) -> u64
    requires few { count ≤ 549755813888 }
    requires known { pulls ≤ count + pulled }
    ensures { result + pulls ≡ count + pulled }
{
    count + pulled as u64 - pulls as u64
}

/// One node less at a port, and one more at another.
fn shift(loads: &mut List<u32>, from: usize, to: usize)
    requires from { from < length loads.old }
    requires to { to < length loads.old }
    requires some { from ≢ to → 1 ≤ slice_index loads.old from }
    requires few { slice_index loads.old to < 4294967295 }
    ensures size { length loads.new ≡ length loads.old }
    ensures each { (port : ℕ) → port < length loads.old
        → slice_index loads.new port + where_at from port 1 ≡ slice_index loads.old port + where_at to port 1 }
{
    if from != to {
        let less = loads.as_slice()[from] - 1;
        loads.set(from, less);
        let more = loads.as_slice()[to] + 1;
        loads.set(to, more);
    }
}

/// Node v goes to its best port.
fn settle(
    work: &mut Work,
    nodes: &NodeNet,
    machine: &Machine,
    takes: &List<List<Entry>>,
    bound: u32,
    most: &[u32],
    v: usize,
) -> Result<(), Memory>
    requires nodes { IsWellFormed nodes.now }
    requires work { IsWork nodes.now work.old }
    requires takes { AreTakes nodes.now takes.now }
    requires most { AreMost machine.now bound work.old.homes.logic most.now }
    requires node { (nodes.now.first_node ≤ v) × (v < length nodes.now.items) }
    ensures work { OnOk result (IsWork nodes.now work.new) }
    ensures homes { OnOk result (work.new.homes ≡ settled nodes.now machine.now bound work.old.homes v) }
    ensures logic { OnOk result (work.new.homes.logic ≡ work.old.homes.logic) }
{
    lift(work, nodes, takes, v)?;
    let port = choice(work, nodes, machine, bound, most, v);
    put(work, nodes, takes, v, port)?;
    Ok(())
}

/// Each node goes to its best port, in item order.
fn one_pass(
    work: &mut Work,
    nodes: &NodeNet,
    machine: &Machine,
    takes: &List<List<Entry>>,
    bound: u32,
    most: &[u32],
) -> Result<(), Memory>
    requires nodes { IsWellFormed nodes.now }
    requires work { IsWork nodes.now work.old }
    requires takes { AreTakes nodes.now takes.now }
    requires most { AreMost machine.now bound work.old.homes.logic most.now }
    ensures work { OnOk result (IsWork nodes.now work.new) }
    ensures homes { OnOk result (work.new.homes ≡ pass nodes.now machine.now bound work.old.homes) }
    ensures logic { OnOk result (work.new.homes.logic ≡ work.old.homes.logic) }
{
    mark_all(&mut work.spread, nodes, &work.homes, &work.uses);
    'nodes: for k in 0..node_count(nodes) {
        let v = (nodes.first_node + k) as usize;
        settle(work, nodes, machine, takes, bound, most, v)?;
    }
    Ok(())
}

/// Passes until one moves nothing: then the crossings are as before it.
pub(crate) fn settle_all(
    work: &mut Work,
    nodes: &NodeNet,
    machine: &Machine,
    takes: &List<List<Entry>>,
    bound: u32,
    most: &[u32],
) -> Result<(), Memory>
    requires nodes { IsWellFormed nodes.now }
    requires work { IsWork nodes.now work.old }
    requires takes { AreTakes nodes.now takes.now }
    requires most { AreMost machine.now bound work.old.homes.logic most.now }
    requires bound { bound ≡ bound_of nodes.now work.old.homes }
    ensures work { OnOk result (IsWork nodes.now work.new) }
    ensures better { OnOk result (IsBetter nodes.now machine.now work.old.homes work.new.homes) }
{
    let mut before = work.count;
    one_pass(work, nodes, machine, takes, bound, most)?;
    'passes: while work.count < before {
        before = work.count;
        one_pass(work, nodes, machine, takes, bound, most)?;
    }
    Ok(())
}
