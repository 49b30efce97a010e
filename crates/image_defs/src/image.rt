//! An image, port by port.

use func_table::Table;
use logic_four::V4;
use net_defs::Init;
use seen_list::List;

/// Where a port takes a value from.
#[derive(Clone, Copy)]
pub enum Source {
    /// What the port's own item in this slot has, in the last turn or in this one.
    Own { slot: u32, last: bool },
    /// What the port receives in this slot, in the last turn or in this one.
    Got { slot: u32, last: bool },
    /// Always this value.
    Const(V4),
}

/// What a logic processor does in a slot.
#[derive(Clone, Copy)]
pub enum Task {
    /// Looks four operands up in the processor's table of this number.
    Eval {
        slot: u32,
        table: u32,
        a: Source,
        b: Source,
        c: Source,
        d: Source,
    },
    /// Holds a register, which takes a value of the last turn at an edge.
    Hold {
        slot: u32,
        from: Source,
    },
}

/// A memory of an array processor, by its sources, bit 0 first: the write enable, 1 to 16 address bits
/// and 1 to 64 data bits. It reads them at an edge, as they were in the last turn.
#[derive(Drop)]
pub struct BlockWork {
    pub we: Source,
    pub address: List<Source>,
    pub word: List<Source>,
}

/// Output bit number `bit` of the array processor's memory number `block`, in a slot.
#[derive(Clone, Copy)]
pub struct OutBit {
    pub slot: u32,
    pub block: u32,
    pub bit: u32,
}

/// The input of this column of the stimulus, counted from 0, in a slot of the host's.
#[derive(Clone, Copy)]
pub struct InColumn {
    pub slot: u32,
    pub column: u32,
}

/// What a port does in a turn. Its items stand in ascending slots.
#[derive(Drop)]
pub enum Work {
    /// A logic processor, with the tables that its tasks name by their numbers.
    Logic {
        tables: List<Table>,
        tasks: List<Task>,
    },
    /// An array processor, with the memories that its output bits name by their numbers.
    Array {
        blocks: List<BlockWork>,
        outs: List<OutBit>,
    },
    /// The host, which feeds the inputs, and prints the values of these sources, in this order, after
    /// the last turn of each cycle.
    Host {
        inputs: List<InColumn>,
        printed: List<Source>,
    },
}

/// In this slot the port sends its item's value to these ports, at least one, in ascending order.
#[derive(Drop)]
pub struct LinkOut {
    pub slot: u32,
    pub readers: List<u32>,
}

/// In this slot the port receives what the sender sends.
#[derive(Clone, Copy)]
pub struct LinkIn {
    pub slot: u32,
    pub sender: u32,
}

/// What a port does, sends and receives in a turn, each in ascending slots.
#[derive(Drop)]
pub struct PortImage {
    pub work: Work,
    pub outs: List<LinkOut>,
    pub ins: List<LinkIn>,
}

/// A compiled design: what every port does in a turn.
#[derive(Drop)]
pub struct Image {
    /// The slots of a turn, at most 65,536.
    pub slots: u32,
    /// The turns of a cycle, 1 to 4,096.
    pub units: u32,
    /// What registers and memories hold at first.
    pub init: Init,
    /// The number of inputs.
    pub columns: u32,
    /// The ports, at least one. The last of them is the host.
    pub ports: List<PortImage>,
}
