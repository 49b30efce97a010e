//! Why a netlist text, or the text of a list of gates or of stuck faults, is refused.

ghost use Rattle.std.specs.Prelude.{◌≡◌};
ghost use Rattle.bench_read.specs.Faults.{of_text};

use bench_text::TextNo;
use seen_list::{Memory, Text};

/// What a text has too many of.
#[derive(Clone, Copy, PartialEq, Eq)]
pub enum Many {
    /// More than 1,048,576 signals.
    Signals,
    /// More than 4,194,304 operands: names within the round brackets of gate, DFF and memory lines.
    Operands,
}

/// Why a text is no netlist. Lines are counted from 1. Names, `INPUT`, `OUTPUT`, comments and the kinds AND,
/// NAND, OR, NOR, NOT and DFF are those of ISCAS'89; all limits, the other kinds and memory lines are this
/// project's profile.
#[derive(Drop)]
pub enum BenchNo {
    /// A byte that no text has, or a name that is too long. It is never `TextNo::Memory`.
    Text(TextNo),
    /// The line has none of the forms.
    Syntax { line: u32 },
    /// The word of a gate or memory line is none that is known there.
    UnknownKind { line: u32 },
    /// The number of operands is none that the kind allows, or a memory has not 1 to 16 address
    /// names, not 1 to 64 data names, or not as many outputs as data names.
    Arity { line: u32 },
    /// The line drives a name that line `first`, or the same line further left, drives.
    DrivenTwice { name: Text, first: u32, line: u32 },
    /// The line uses a name that no line drives.
    Undriven { name: Text, line: u32 },
    /// With this line there are too many.
    TooMany { line: u32, what: Many },
    /// There was not enough memory.
    Memory,
}

impl From<Memory> for BenchNo {
    ghost use Rattle.std.specs.Prelude.{◌≡◌};
    ghost use Rattle.bench_read.specs.declared.refusal.BenchNo.TheVariants.{Memory as NoMemory};

    ghost from_gives = { λ _ e. e ≡ NoMemory };

    fn from(_refused: Memory) -> BenchNo {
        BenchNo::Memory
    }
}

/// Why the text of a list of gates is refused. Lines are counted from 1.
#[derive(Clone, Copy)]
pub enum LastNo {
    /// The line is neither blank nor one name.
    Syntax { line: u32 },
    /// The line's name is that of no gate of the netlist. An input, a register and the output of a
    /// memory are no gates.
    NoGate { line: u32 },
    /// An earlier line has the line's name.
    Twice { line: u32 },
    /// There was not enough memory to read the text.
    Memory,
}

impl From<Memory> for LastNo {
    ghost use Rattle.std.specs.Prelude.{◌≡◌};
    ghost use Rattle.bench_read.specs.declared.refusal.LastNo.TheVariants.{Memory as NoMemory};

    ghost from_gives = { λ _ e. e ≡ NoMemory };

    fn from(_refused: Memory) -> LastNo {
        LastNo::Memory
    }
}

/// Why the text of a list of stuck faults is refused. Lines are counted from 1.
#[derive(Clone, Copy)]
pub enum FaultNo {
    /// The line is neither blank, nor a name and `0` or `1`, with or without a `-` after them.
    Syntax { line: u32 },
    /// No signal of the netlist has the line's name.
    NoSignal { line: u32 },
    /// An earlier line has the line's fault.
    Twice { line: u32 },
    /// There was not enough memory to read the text.
    Memory,
}

impl From<Memory> for FaultNo {
    ghost use Rattle.std.specs.Prelude.{◌≡◌};
    ghost use Rattle.bench_read.specs.declared.refusal.FaultNo.TheVariants.{Memory as NoMemory};

    ghost from_gives = { λ _ e. e ≡ NoMemory };

    fn from(_refused: Memory) -> FaultNo {
        FaultNo::Memory
    }
}

/// The refusal of a text whose bytes have a fault, or for want of memory.
pub fn of_text(no: TextNo) -> BenchNo
    ensures { result ≡ of_text no }
{
    match no {
        TextNo::Memory => BenchNo::Memory,
        other => BenchNo::Text(other),
    }
}
