//! What a report counts over the whole plan.

ghost use Rattle.std.specs.Prelude.{◌≡◌, ◌+◌, ◌<◌, ◌==◌, ◌^◌, ℕ, IfOk, length, map, count_by, slice_index, slice_set};
ghost use Rattle.node_defs.specs.WellFormed.{IsWellFormed};
ghost use Rattle.plan_defs.specs.{Homes.AreHomes, Homes.ports_of, Switches.IsSwitch};
ghost use Rattle.plan_text.specs.Counted.{bits_at, AreFigures, HasPorts};

use home_pick::block_bits;
use node_defs::NodeNet;
use plan_defs::{Homes, Plan, Readers, Switch};
use seen_list::{List, Memory};
use slot_plan::tables::table_counts;
use std::alloc::Global;

/// The numbers of a report that are counted over the whole plan, and the readers of each item.
#[derive(Drop)]
pub struct Figures {
    /// The items of each port.
    pub items: List<usize>,
    /// The different tables of each logic port.
    pub tables: List<u32>,
    /// The bits of the memories of each array port.
    pub bits: List<u64>,
    /// The slots in which each port receives.
    pub takes: List<usize>,
    pub readers: Readers,
}

impl Figures {
    /// The figures of a plan: a pass over the items, over the memories and over the ports.
    pub fn new(
        alloc: Global,
        nodes: &NodeNet,
        homes: &Homes,
        _plan: &Plan,
        switch: &Switch,
    ) -> Result<Figures, Memory>
        requires nodes { IsWellFormed nodes.now }
        requires homes { AreHomes nodes.now homes.now }
        requires switch { IsSwitch nodes.now homes.now _plan.now.slots switch.now }
        ensures ports { IfOk result (HasPorts homes.now) }
        ensures items { IfOk result (λ figures. length figures.readers.lists ≡ length nodes.now.items) }
        ensures figures { IfOk result (AreFigures nodes.now homes.now _plan.now.slots) }
    {
        Ok(Figures {
            items: item_counts(alloc, nodes, homes)?,
            tables: table_counts(alloc, nodes, homes)?,
            bits: bit_counts(alloc, nodes, homes)?,
            takes: receipt_counts(alloc, switch)?,
            readers: Readers::new(alloc, nodes, homes)?,
        })
    }
}

/// How many items are at each port.
fn item_counts(alloc: Global, nodes: &NodeNet, homes: &Homes) -> Result<List<usize>, Memory>
    requires nodes { IsWellFormed nodes.now }
    requires homes { AreHomes nodes.now homes.now }
    ensures shape { IfOk result (λ counts. length counts ≡ ports_of homes.now) }
    ensures counts { IfOk result (λ counts. (port : ℕ) → port < ports_of homes.now
        → slice_index counts port ≡ count_by (λ home. home == port) homes.now.items) }
{
    let mut counts = List::filled(alloc, 0usize, (homes.logic + homes.array + 1) as usize)?;
    let ports = homes.items.as_slice();
    'items: for i in 0..nodes.items.len() {
        raise(&mut counts, ports[i] as usize);
    }
    Ok(counts)
}

/// Counts one more at this place.
fn raise(counts: &mut List<usize>, place: usize)
    requires within { place < length counts.old }
    requires small { slice_index counts.old place < 2 ^ 63 }
    ensures { counts.new ≡ slice_set counts.old place (slice_index counts.old place + 1) }
{
    let count = counts.as_slice()[place];
    counts.set(place, count + 1);
}

/// How many bits the memories at each array port take.
fn bit_counts(alloc: Global, nodes: &NodeNet, homes: &Homes) -> Result<List<u64>, Memory>
    requires nodes { IsWellFormed nodes.now }
    requires homes { AreHomes nodes.now homes.now }
    ensures shape { IfOk result (λ counts. length counts ≡ homes.now.array) }
    ensures counts { IfOk result (λ counts. (a : ℕ) → a < homes.now.array
        → slice_index counts a ≡ bits_at nodes.now homes.now (homes.now.logic + a)) }
{
    let mut counts = List::filled(alloc, 0u64, homes.array as usize)?;
    let blocks = nodes.blocks.as_slice();
    let ports = homes.blocks.as_slice();
    'memories: for m in 0..blocks.len() {
        let a = (ports[m] - homes.logic) as usize;
        let bits = counts.as_slice()[a] + block_bits(&blocks[m]) as u64;
        counts.set(a, bits);
    }
    Ok(counts)
}

/// In how many slots each port receives.
fn receipt_counts(alloc: Global, switch: &Switch) -> Result<List<usize>, Memory>
    ensures { IfOk result (λ counts. counts ≡ map (λ links. length links.receipts) switch.now.ports) }
{
    let mut counts = List::new(alloc);
    for links in switch.ports.as_slice() {
        counts.push(links.receipts.len())?;
    }
    Ok(counts)
}
