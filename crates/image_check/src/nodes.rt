//! Whether what stands at a place is as the item that it claims.

ghost use Rattle.std.specs.Prelude.{◌≡◌, ◌↔◌, IsTrue, IfSome, List as Items};
ghost use Rattle.func_table.specs.{declared.table.Table.Table, Entries.AreAlike};
ghost use Rattle.node_defs.specs.declared.items.{Item.TheVariants.Node, Item.TheVariants.Latch, NodeNet.NodeNet};
ghost use Rattle.image_defs.specs.Matches.{Implements, ImplementsClaim, TaskImplements, InputImplements};
ghost use Rattle.image_defs.specs.{Places.blocks_of, Claimed.lists_of};
ghost use Rattle.image_check.specs.code.OnePorts.{IsOnePort, IsLike, AreSame, CarryFour};
ghost use Rattle.image_check.specs.code.Memories.{AreSameMemories};

use crate::claims::{OnePort, carries, carries_item};
use crate::memories::{Pair, bit_implements};
use func_table::{Table, entries_decide};
use image_defs::{InColumn, Source, Task, Work};
use node_defs::{Feeds, Item, NodeNet, Tag};
use seen_list::List;

/// The four operands of a task.
#[derive(Clone, Copy)]
pub(crate) struct Operands {
    pub(crate) a: Source,
    pub(crate) b: Source,
    pub(crate) c: Source,
    pub(crate) d: Source,
}

/// Whether item number `k` of the port is as the item that it claims.
pub(crate) fn is_as_claimed(
    one: &OnePort,
    nodes: &NodeNet,
    k: usize,
    claimed: u32,
    known: Option<Pair>,
) -> bool
    requires one { IsOnePort one.now }
    requires known { IfSome known (AreSameMemories one.now (blocks_of one.now.port.now.work) nodes.now.blocks) }
    ensures { IsTrue result ↔ ImplementsClaim one.now.file.now.image (lists_of one.now.file.now.claims)
        nodes.now one.now.number k claimed one.now.port.now }
{
    match nodes.items.get(claimed as usize) {
        Some(item) => implements(one, nodes, k, item, known),
        None => false,
    }
}

fn implements(one: &OnePort, nodes: &NodeNet, k: usize, item: &Item, known: Option<Pair>) -> bool
    requires one { IsOnePort one.now }
    requires known { IfSome known (AreSameMemories one.now (blocks_of one.now.port.now.work) nodes.now.blocks) }
    ensures { IsTrue result ↔ Implements one.now.file.now.image (lists_of one.now.file.now.claims)
        nodes.now one.now.number one.now.port.now.ins one.now.port.now.work k item.now }
{
    match &one.port.work {
        Work::Logic { tables, tasks } => match tasks.get(k) {
            Some(task) => task_implements(one, nodes, tables, task, item),
            None => false,
        },
        Work::Array { blocks, outs } => match outs.get(k) {
            Some(out) => bit_implements(one, nodes, blocks, out, item, known),
            None => false,
        },
        Work::Host { inputs, .. } => match inputs.get(k) {
            Some(input) => input_implements(input, item),
            None => false,
        },
    }
}

fn task_implements(
    one: &OnePort,
    nodes: &NodeNet,
    tables: &List<Table>,
    task: &Task,
    item: &Item,
) -> bool
    requires { IsOnePort one.now }
    ensures { IsTrue result ↔ TaskImplements one.now.file.now.image (lists_of one.now.file.now.claims)
        nodes.now one.now.number one.now.port.now.ins tables.now task.now item.now }
{
    match item {
        Item::Input { .. } => false,
        Item::BlockBit { .. } => false,
        Item::Node { table, feeds } => evaluates(one, nodes, tables, task, *table, feeds),
        Item::Latch { op } => holds(one, task, *op),
    }
}

/// Whether the task evaluates the node of this table and these operands.
fn evaluates(
    one: &OnePort,
    nodes: &NodeNet,
    tables: &List<Table>,
    task: &Task,
    number: u32,
    feeds: &Feeds,
) -> bool
    requires { IsOnePort one.now }
    ensures { IsTrue result ↔ TaskImplements one.now.file.now.image (lists_of one.now.file.now.claims)
        nodes.now one.now.number one.now.port.now.ins tables.now task.now (Node number feeds.now) }
{
    match task {
        Task::Eval {
            table,
            a,
            b,
            c,
            d,
            ..
        } => {
            let sources = Operands {
                a: *a,
                b: *b,
                c: *c,
                d: *d,
            };
            looks_up(one, tables, *table, &nodes.tables, number, &sources, feeds)
        }
        Task::Hold { .. } => false,
    }
}

fn looks_up(
    one: &OnePort,
    tables: &List<Table>,
    table: u32,
    others: &List<Table>,
    other: u32,
    sources: &Operands,
    feeds: &Feeds,
) -> bool
    requires { IsOnePort one.now }
    ensures { IsTrue result ↔ (AreSame tables.now others.now table other × CarryFour one.now sources.now feeds.now) }
{
    if !is_same_table(tables, table, others, other) {
        return false;
    }
    carry_four(one, sources, feeds)
}

/// Whether the task holds the register of this operand.
fn holds(one: &OnePort, task: &Task, op: u32) -> bool
    requires { IsOnePort one.now }
    ensures { (nodes : NodeNet) (tables : Items Table) → IsTrue result ↔ TaskImplements one.now.file.now.image (lists_of one.now.file.now.claims)
        nodes one.now.number one.now.port.now.ins tables task.now (Latch op) }
{
    match task {
        Task::Eval { .. } => false,
        Task::Hold { from, .. } => carries_item(one, from, op, Tag::Last),
    }
}

fn carry_four(one: &OnePort, sources: &Operands, feeds: &Feeds) -> bool
    requires { IsOnePort one.now }
    ensures { IsTrue result ↔ CarryFour one.now sources.now feeds.now }
{
    if !carries(one, &sources.a, &feeds.a) {
        return false;
    }
    if !carries(one, &sources.b, &feeds.b) {
        return false;
    }
    if !carries(one, &sources.c, &feeds.c) {
        return false;
    }
    carries(one, &sources.d, &feeds.d)
}

/// Whether the tables of these numbers, each in its own list, have the same entries.
fn is_same_table(tables: &List<Table>, table: u32, others: &List<Table>, other: u32) -> bool
    ensures { IsTrue result ↔ AreSame tables.now others.now table other }
{
    match tables.get(table as usize) {
        Some(found) => is_like(found, others, other),
        None => false,
    }
}

fn is_like(table: &Table, others: &List<Table>, other: u32) -> bool
    ensures { IsTrue result ↔ IsLike table.now others.now other }
{
    match others.get(other as usize) {
        Some(found) => is_alike(table, found),
        None => false,
    }
}

fn is_alike(table: &Table, other: &Table) -> bool
    ensures { IsTrue result ↔ AreAlike table.now other.now }
{
    entries_decide(table, other);
    table == other
}

fn input_implements(input: &InColumn, item: &Item) -> bool
    ensures { IsTrue result ↔ InputImplements input.now item.now }
{
    match item {
        Item::Input { column } => input.column == *column,
        Item::BlockBit { .. } => false,
        Item::Node { .. } => false,
        Item::Latch { .. } => false,
    }
}
