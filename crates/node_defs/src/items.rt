//! Items, their names, and the list of the items of a netlist.

use func_table::Table;
use logic_four::V4;
use seen_list::List;

/// Of which turn an operand's value is taken.
#[derive(Clone, Copy, PartialEq, Eq)]
pub enum Tag {
    /// This turn's.
    This,
    /// The last turn's.
    Last,
}

/// An operand of a node.
#[derive(Clone, Copy)]
pub enum Feed {
    /// The value of the item of this number.
    From { item: u32, tag: Tag },
    /// Always this value.
    Fixed(V4),
}

/// The four operands of a node. Those past its number of operands are fixed at 0.
#[derive(Clone, Copy)]
pub struct Feeds {
    pub a: Feed,
    pub b: Feed,
    pub c: Feed,
    pub d: Feed,
}

/// An item. Items are numbered from 0: the inputs, then the memory outputs, both in signal order,
/// then nodes and latches by rank, then by the signal of their gate or register, then by the number of
/// the helper, a gate's own node last. So each stands after all whose values of this turn it takes.
#[derive(Clone, Copy)]
pub enum Item {
    /// The input of this column of the stimulus, counted from 0.
    Input { column: u32 },
    /// Output bit number `bit` of memory number `block`.
    BlockBit { block: u32, bit: u32 },
    /// A gate of at most four operands, or a part of a wider one, by the number of its table.
    Node { table: u32, feeds: Feeds },
    /// A register (DFF) of the item `op`, whose value of the last turn it takes at an edge.
    Latch { op: u32 },
}

/// What an item stands for: a signal, or a helper of a wide gate.
#[derive(Clone, Copy)]
pub struct ItemName {
    /// The number of the signal, or of the signal that the wide gate drives.
    pub signal: u32,
    /// The number of the helper, counted from 0; `None` for the signal itself.
    pub helper: Option<u32>,
}

/// A memory by the numbers of the items that it reads at an edge, of which it takes the values of the
/// last turn, bit 0 first: the write enable, 1 to 16 address bits and 1 to 64 data bits.
#[derive(Drop)]
pub struct NodeBlock {
    pub we: u32,
    pub address: List<u32>,
    pub word: List<u32>,
}

/// The items of a netlist.
#[derive(Drop)]
pub struct NodeNet {
    pub items: List<Item>,
    /// What each item stands for, in the same order.
    pub names: List<ItemName>,
    /// The tables of the nodes, no two of them equal.
    pub tables: List<Table>,
    /// The items that are printed, in file order.
    pub printed: List<u32>,
    /// The memories in file order.
    pub blocks: List<NodeBlock>,
    /// The number of the first node or latch, which is the number of inputs and memory outputs.
    pub first_node: u32,
}
