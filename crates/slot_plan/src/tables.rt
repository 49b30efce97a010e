//! The different tables that the nodes of each port use.

ghost use Rattle.std.specs.Prelude.{◌≡◌, ◌+◌, ◌-◌, ◌*◌, ◌^◌, ◌<◌, ◌≤◌, ℕ, IfOk, IfSome, IsNone, if◌then◌else◌, length};
ghost use Rattle.plan_defs.specs.{Bits.HasBit, Bits.Adds, Homes.AreHomes, Tables.UsesTable, Tables.FitsTables, Tables.table_limit as limit_of};
ghost use Rattle.plan_defs.specs.code.UserRows.{HasPlace};
ghost use Rattle.node_defs.specs.WellFormed.{IsWellFormed};
ghost use Rattle.slot_plan.specs.code.UsedTables.{HasTable, AreUsed, CountsBelow, IsFirstCrowded};
ghost use Rattle.slot_plan.specs.UsedTables.{AreTableCounts};

use machine_text::{Limited, Machine};
use node_defs::{Item, NodeNet};
use plan_defs::{BitRows, Homes};
use seen_list::{List, Memory};
use std::alloc::Global;

/// A port and the number of different tables that its nodes use.
#[derive(Clone, Copy)]
pub(crate) struct Crowded {
    pub(crate) port: u32,
    pub(crate) needed: u32,
}

/// How many different tables the nodes of each logic port use, in port order.
pub fn table_counts(alloc: Global, nodes: &NodeNet, homes: &Homes) -> Result<List<u32>, Memory>
    requires nodes { IsWellFormed nodes.now }
    requires homes { AreHomes nodes.now homes.now }
    ensures { IfOk result (AreTableCounts nodes.now homes.now homes.now.logic) }
{
    let rows = used(alloc, nodes, homes)?;
    let mut counts = List::new(alloc);
    'ports: for port in 0..homes.logic {
        counts.push(count(&rows, port as usize, nodes.tables.len()))?;
    }
    Ok(counts)
}

/// A row for each logic port: the tables that its nodes use.
fn used(alloc: Global, nodes: &NodeNet, homes: &Homes) -> Result<BitRows, Memory>
    requires nodes { IsWellFormed nodes.now }
    requires homes { AreHomes nodes.now homes.now }
    ensures { IfOk result (AreUsed nodes.now homes.now) }
{
    let mut rows = BitRows::new(alloc, homes.logic as usize, nodes.tables.len() / 64 + 1)?;
    mark_tables(&mut rows, nodes, homes);
    Ok(rows)
}

/// Marks the table of every node at its home.
fn mark_tables(rows: &mut BitRows, nodes: &NodeNet, homes: &Homes)
    requires homes { AreHomes nodes.now homes.now }
    requires places { (port table : ℕ) → UsesTable nodes.now homes.now port table → HasPlace rows.old port table }
    ensures { Adds rows.old rows.new (UsesTable nodes.now homes.now) }
{
    let items = nodes.items.as_slice();
    let ports = homes.items.as_slice();
    'items: for node in 0..items.len() {
        mark_table(rows, &items[node], ports[node] as usize);
    }
}

/// Marks the table of a node at the port.
fn mark_table(rows: &mut BitRows, item: &Item, port: usize)
    requires { (table : ℕ) → HasTable item.now table → HasPlace rows.old port table }
    ensures { Adds rows.old rows.new (λ p table. (p ≡ port) × HasTable item.now table) }
{
    match item {
        Item::Input { .. } => {}
        Item::BlockBit { .. } => {}
        Item::Node { table, .. } => rows.put(port, *table as usize),
        Item::Latch { .. } => {}
    }
}

/// The number of tables in a port's row.
fn count(rows: &BitRows, port: usize, tables: usize) -> u32
    requires few { tables < 2 ^ 32 }
    requires room { port * rows.now.stride + rows.now.stride ≤ length rows.now.words }
    ensures { CountsBelow (HasBit rows.now port) tables result }
{
    let mut count: u32 = 0;
    'tables: for table in 0..tables {
        let is = rows.has(port, table);
        count = counted(count, is);
    }
    count
}

/// One more if this one counts.
fn counted(count: u32, is: bool) -> u32
    requires { count < 2 ^ 32 - 1 }
    ensures { result ≡ (if is then count + 1 else count) }
{
    if is { count + 1 } else { count }
}

/// The most different tables that a logic port may use.
pub(crate) fn table_limit(machine: &Machine, port: u32) -> u32
    ensures { result ≡ limit_of machine.now port }
{
    machine.limit_at(Limited::Functions, port)
}

/// The first port whose nodes use more tables than it may, by the number of tables of each port.
pub(crate) fn first_crowded(
    counts: &[u32],
    nodes: &NodeNet,
    homes: &Homes,
    machine: &Machine,
) -> Option<Crowded>
    requires { AreTableCounts nodes.now homes.now homes.now.logic counts.now }
    ensures none { IsNone result → (port : ℕ) → port < homes.now.logic → FitsTables nodes.now homes.now machine.now port }
    ensures some { IfSome result (IsFirstCrowded nodes.now homes.now machine.now) }
{
    'ports: for port in 0..homes.logic {
        let needed = counts[port as usize];
        if needed > table_limit(machine, port) {
            return Some(Crowded { port, needed });
        }
    }
    None
}
