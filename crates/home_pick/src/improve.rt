//! Better homes, and the crossings before and after.

ghost use Rattle.std.specs.Prelude.{◌≡◌, ◌≤◌, ◌<◌, ℕ, IfOk, OnOk, length};
ghost use Rattle.std.specs.List.{sum_by};
ghost use Rattle.node_defs.specs.WellFormed.{IsWellFormed};
ghost use Rattle.plan_defs.specs.Homes.{AreHomes, home_of};
ghost use Rattle.home_pick.specs.Better.{bound_of as bound_from, IsBetter, IsFilled, IsWithin, KeepsOthers, NoneLowers};
ghost use Rattle.home_pick.specs.{Crossings.crossings, Crossings.readers_at, code.Uses.AreTakes, code.Uses.AreUses, code.Work.away_by, code.Work.AreLoads};
ghost use Rattle.home_pick.specs.code.Working.{IsWork};

use crate::bags::{Entry, bag_of};
use crate::links::{takes_of, uses_of};
use crate::loads::{bound_of, loads_of, most_each};
use crate::moves::{Work, settle_all};
use crate::pulls::Pulls;
use machine_text::Machine;
use node_defs::NodeNet;
use plan_defs::Homes;
use seen_list::{List, Memory};
use std::alloc::Global;

/// Better homes. Crossings are the pairs of an item and a port that reads it, items of all kinds, and
/// memories and the host among the readers.
#[derive(Drop)]
pub struct Improved {
    pub homes: Homes,
    /// The crossings of the homes that were given.
    pub before: u64,
    /// The crossings of the better ones.
    pub after: u64,
}

/// Better homes, from those that are given. Passes go over the nodes, latches among them, in item
/// order; each goes to that port, of its own and those with room, for which the crossings are least, to
/// its own where that is one of them, and else to the least port; until a pass moves nothing. A port has
/// room while its nodes are fewer than its own limit and than the bound: the greatest load at the start,
/// or a little more than an even share, whichever is greater. That the crossings are the fewest that any
/// homes have is not promised.
///
/// Want of memory is also answered where a port uses one item at 2^32 places or more.
pub fn better(
    alloc: Global,
    nodes: &NodeNet,
    homes: &Homes,
    machine: &Machine,
) -> Result<Improved, Memory>
    requires nodes { IsWellFormed nodes.now }
    requires homes { AreHomes nodes.now homes.now }
    ensures better { IfOk result (λ improved. IsBetter nodes.now machine.now homes.now improved.homes) }
    ensures before { IfOk result (λ improved. improved.before ≡ crossings nodes.now homes.now) }
    ensures after { IfOk result (λ improved. improved.after ≡ crossings nodes.now improved.homes) }
    ensures fewer { IfOk result (λ improved. improved.after ≤ improved.before) }
    ensures homes { IfOk result (λ improved. AreHomes nodes.now improved.homes) }
    ensures others { IfOk result (λ improved. KeepsOthers nodes.now homes.now improved.homes) }
    ensures within { IfOk result (λ improved. IsWithin nodes.now (bound_from nodes.now homes.now) improved.homes) }
    ensures filled { IfOk result (λ improved. IsFilled nodes.now machine.now (bound_from nodes.now homes.now) homes.now improved.homes) }
    ensures none_lowers { IfOk result (λ improved. NoneLowers nodes.now machine.now (bound_from nodes.now homes.now) improved.homes) }
{
    let takes = takes_of(alloc, nodes)?;
    let mut work = begin(alloc, nodes, homes, &takes)?;
    let before = work.count;
    settle_within(alloc, &mut work, nodes, machine, &takes)?;
    Ok(Improved {
        before,
        after: work.count,
        homes: work.homes,
    })
}

/// Passes until one moves nothing, where no port is filled past the bound of the homes at the start.
fn settle_within(
    alloc: Global,
    work: &mut Work,
    nodes: &NodeNet,
    machine: &Machine,
    takes: &List<List<Entry>>,
) -> Result<(), Memory>
    requires nodes { IsWellFormed nodes.now }
    requires work { IsWork nodes.now work.old }
    requires takes { AreTakes nodes.now takes.now }
    ensures work { OnOk result (IsWork nodes.now work.new) }
    ensures better { OnOk result (IsBetter nodes.now machine.now work.old.homes work.new.homes) }
{
    let bound = bound_of(nodes, &work.homes, work.loads.as_slice());
    let most = most_each(alloc, machine, bound, work.homes.logic)?;
    settle_all(work, nodes, machine, takes, bound, most.as_slice())
}

/// The homes that are given and what is counted of them, with room for what pulls nodes.
fn begin(
    alloc: Global,
    nodes: &NodeNet,
    homes: &Homes,
    takes: &List<List<Entry>>,
) -> Result<Work, Memory>
    requires nodes { IsWellFormed nodes.now }
    requires homes { AreHomes nodes.now homes.now }
    requires takes { AreTakes nodes.now takes.now }
    ensures work { IfOk result (IsWork nodes.now) }
    ensures homes { IfOk result (λ work. work.homes ≡ homes.now) }
{
    let loads = loads_of(alloc, nodes, homes)?;
    let spread = List::filled(alloc, false, nodes.items.len())?;
    let at = List::filled(alloc, 0, homes.logic as usize)?;
    let copied = copy_of(homes)?;
    let uses = uses_of(alloc, nodes, homes, takes)?;
    Ok(Work {
        count: count_crossings(nodes, homes, &uses),
        homes: copied,
        uses,
        loads,
        spread,
        pulls: Pulls {
            at,
            touched: List::new(alloc),
        },
    })
}

/// The same homes once more.
fn copy_of(homes: &Homes) -> Result<Homes, Memory>
    ensures { IfOk result (λ copied. copied ≡ homes.now) }
{
    let items = homes.items.copy()?;
    let blocks = homes.blocks.copy()?;
    Ok(Homes {
        logic: homes.logic,
        array: homes.array,
        items,
        blocks,
    })
}

/// The crossings, by the ports that use each item.
fn count_crossings(nodes: &NodeNet, homes: &Homes, uses: &List<List<Entry>>) -> u64
    requires nodes { IsWellFormed nodes.now }
    requires homes { AreHomes nodes.now homes.now }
    requires uses { AreUses nodes.now homes.now uses.now }
    ensures { result ≡ crossings nodes.now homes.now }
{
    let ports = homes.items.as_slice();
    let mut count: u64 = 0;
    'items: for i in 0..nodes.items.len() {
        count += readers_of(nodes, homes, uses, i, ports[i]) as u64;
    }
    count
}

/// How many ports read an item that is at this home.
fn readers_of(
    nodes: &NodeNet,
    homes: &Homes,
    uses: &List<List<Entry>>,
    i: usize,
    home: u32,
) -> usize
    requires nodes { IsWellFormed nodes.now }
    requires homes { AreHomes nodes.now homes.now }
    requires uses { AreUses nodes.now homes.now uses.now }
    requires item { i < length nodes.now.items }
    requires home { home ≡ home_of homes.now i }
    ensures { result ≡ readers_at nodes.now homes.now i }
{
    away(bag_of(uses, i), home)
}

/// How many entries of other ports than this count at all.
fn away(bag: &[Entry], home: u32) -> usize
    ensures { result ≡ sum_by (away_by home) bag.now }
{
    let mut count: usize = 0;
    'entries: for k in 0..bag.len() {
        count += away_one(bag[k], home);
    }
    count
}

/// 1 where the entry counts at all and is of another port, and else 0.
fn away_one(entry: Entry, home: u32) -> usize
    ensures is { result ≡ away_by home entry }
    ensures few { result ≤ 1 }
{
    if entry.key != home && entry.count > 0 {
        1
    } else {
        0
    }
}
