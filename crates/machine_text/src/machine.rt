//! A machine, and why a machine text is refused.

ghost use Rattle.std.specs.{Prelude.◌≡◌, List.find};
ghost use Rattle.machine_text.specs.{Limits.common_limit, Limits.is_at, Limits.limit_at, Machines.default_machine, Machines.IsValid};

use crate::quantity::Quantity;
use seen_list::{List, Memory};
use std::alloc::Global;

/// What a machine text can limit at single ports.
#[derive(Clone, Copy, PartialEq, Eq)]
pub enum Limited {
    /// The different functions of a logic processor.
    Functions,
    /// The nodes of a logic processor.
    Nodes,
    /// The bits of an array processor.
    Bits,
}

/// A limit that holds at one port, in place of that of all ports.
#[derive(Clone, Copy)]
pub struct PortLimit {
    pub what: Limited,
    /// Which of the logic processors it is, and for bits which of the array processors, from 0.
    pub port: u32,
    /// In the range of what it limits.
    pub limit: u32,
}

/// The numbers and sizes of a machine's processors.
#[derive(Drop)]
pub struct Machine {
    /// The number of logic processors, 1 to 254. With the array processors and the host there are
    /// at most 256 ports.
    pub logic: u32,
    /// The number of array processors, 0 to 64.
    pub array: u32,
    /// The slots of a turn, 1 to 65,536.
    pub slots: u32,
    /// The different functions that a logic processor holds, 1 to 4,096.
    pub functions: u32,
    /// The bits that an array processor holds, 1 to 16,777,216.
    pub bits: u32,
    /// The nodes that a logic processor holds, 1 to 4,194,304.
    pub nodes: u32,
    /// The limits of single ports, at most one of a kind for each port.
    pub own: List<PortLimit>,
}

impl Machine {
    /// The machine of a text that sets nothing. It takes no memory.
    pub fn default_size(alloc: Global) -> Machine
        ensures default { result ≡ default_machine }
        ensures valid { IsValid result }
    {
        Machine {
            logic: Quantity::Logic.default_number(),
            array: Quantity::Array.default_number(),
            slots: Quantity::Slots.default_number(),
            functions: Quantity::Functions.default_number(),
            bits: Quantity::Bits.default_number(),
            nodes: Quantity::Nodes.default_number(),
            own: List::new(alloc),
        }
    }

    /// The limit that holds at the port of this number, counted as in [`PortLimit`]: its own, and where
    /// it has none, that of all ports.
    pub fn limit_at(&self, what: Limited, port: u32) -> u32
        ensures { result ≡ limit_at self.now what port }
    {
        match self.own.iter().find(|own| is_at(own, what, port)) {
            Some(own) => own.limit,
            None => self.common_limit(what),
        }
    }

    /// The limit that holds at all ports that have none of their own.
    fn common_limit(&self, what: Limited) -> u32
        ensures { result ≡ common_limit self.now what }
    {
        match what {
            Limited::Functions => self.functions,
            Limited::Nodes => self.nodes,
            Limited::Bits => self.bits,
        }
    }
}

/// Whether this is the own limit of a port.
fn is_at(own: &PortLimit, what: Limited, port: u32) -> bool
    ensures { result ≡ is_at what port own.now }
{
    own.what == what && own.port == port
}

/// Why a machine text is refused. Lines are counted from 1.
#[derive(Clone, Copy, PartialEq, Eq)]
pub enum MachNo {
    /// The line is neither blank nor one of the forms that the text's version has.
    Syntax { line: u32 },
    /// The line's number is out of its word's range.
    Range { line: u32 },
    /// An earlier line has the line's word, without a port where the line has none, and else with the
    /// same port.
    Twice { line: u32 },
    /// No line has a fault, and the processors and the host are `sum` ports, more than 256.
    Ports { sum: u32 },
    /// There was not enough memory to read the text.
    Memory,
    /// No line has a fault, the ports are few enough, and the line limits a port that is not there.
    NoPort { line: u32 },
}

impl From<Memory> for MachNo {
    ghost use Rattle.std.specs.Prelude.{◌≡◌};
    ghost use Rattle.machine_text.specs.declared.machine.MachNo.TheVariants.{Memory as NoMemory};

    ghost from_gives = { λ _ e. e ≡ NoMemory };

    fn from(_refused: Memory) -> MachNo {
        MachNo::Memory
    }
}
