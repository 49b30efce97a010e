//! Netlists.

ghost use Rattle.std.specs.Prelude.{◌≡◌, ◌≤◌, length, count_by};
ghost use Rattle.limits.specs.declared.TheConstants.{MAX_SIGNALS};
ghost use Rattle.net_defs.specs.Valid.{input_count, is_input};

use logic_four::Kind;
use seen_list::{List, Text};

/// What gives a signal its value. Operands are numbers of signals, counted from 0 in signal order.
#[derive(Drop)]
pub enum Driver {
    /// The stimulus. Inputs come first in signal order, so the number of an input is its column.
    Input,
    Gate {
        kind: Kind,
        /// From left to right. One may stand several times.
        ops: List<u32>,
    },
    Dff {
        op: u32,
    },
    /// Output bit number `bit` of memory number `block`.
    BlockBit {
        block: u32,
        bit: u32,
    },
}

/// A signal: its name, of 1 to 255 bytes, and its driver.
#[derive(Drop)]
pub struct Signal {
    pub name: Text,
    pub driver: Driver,
}

/// A memory. All numbers are signal numbers, and bit 0 comes first and is the least significant.
#[derive(Drop)]
pub struct Block {
    /// The write enable.
    pub we: u32,
    /// The address, of 1 to 16 bits.
    pub address: List<u32>,
    /// The data to be written, of 1 to 64 bits.
    pub word: List<u32>,
    /// The signals that this memory drives, one for each data bit.
    pub outs: List<u32>,
}

/// A netlist: its signals in signal order (the inputs in file order, then the others in the order of
/// the lines that drive them), the printed signals in file order, and the memories in file order.
#[derive(Drop)]
pub struct Netlist {
    pub signals: List<Signal>,
    pub printed: List<u32>,
    pub blocks: List<Block>,
}

impl Netlist {
    /// The number of inputs.
    pub fn inputs(&self) -> u32
        requires { length self.now.signals ≤ MAX_SIGNALS }
        ensures { result ≡ input_count self.now }
    {
        count_inputs(self.signals.as_slice()) as u32
    }
}

fn count_inputs(signals: &[Signal]) -> usize
    ensures count { result ≡ count_by (λ signal. is_input signal.driver) signals.now }
    ensures within { result ≤ length signals.now }
{
    signals
        .iter()
        .filter(|signal| is_input(&signal.driver))
        .count()
}

fn is_input(driver: &Driver) -> bool
    ensures { result ≡ is_input driver.now }
{
    matches!(driver, Driver::Input)
}
