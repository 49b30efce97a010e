//! The limits of netlists, stimuli, texts and machines that this project's profile sets, each stated
//! once. The law of the module `law` says each number in digits.
//!
//! ```
//! let fits = fits_text(MAX_TEXT_BYTES); // true: 67,108,864 bytes may be read, and one more is too many
//! ```
#![tactic(auto)]

pub mod law;

ghost use Rattle.std.specs.Prelude.{◌↔◌, ◌≤◌, IsTrue};

/// The most bytes of a text that is read: 64 MiB.
pub const MAX_TEXT_BYTES: usize = 67_108_864;

/// The most signals of a netlist.
pub const MAX_SIGNALS: usize = 1_048_576;

/// The most operands of all the lines of a netlist together: the names within their round brackets,
/// those of input and output lines not counted.
pub const MAX_OPERANDS: usize = 4_194_304;

/// The most operands of one gate, where its kind takes any number of them.
pub const MAX_GATE_OPERANDS: usize = 1024;

/// The most bytes of a name.
pub const MAX_NAME_BYTES: usize = 255;

/// The most address bits of a memory.
pub const MAX_ADDRESS_BITS: usize = 16;

/// The most bits of a word of a memory.
pub const MAX_WORD_BITS: usize = 64;

/// The most cycles of a run.
pub const MAX_CYCLES: u32 = 1_000_000;

/// The most times that a row of a stimulus, or a line of an order, may be repeated.
pub const MAX_REPEAT: u32 = MAX_CYCLES;

/// The most steps of an order.
pub const MAX_STEPS: u32 = 1_000_000_000;

/// The most cells of a run: its cycles times the sum of its inputs and its printed names.
pub const MAX_CELLS: u64 = 268_435_456;

/// The most turns of a cycle.
pub const MAX_UNITS: u32 = 4096;

/// The most logic processors of a machine.
pub const MAX_LOGIC: u32 = 254;

/// The most array processors of a machine.
pub const MAX_ARRAY: u32 = 64;

/// The most ports of a machine: its processors and the host.
pub const MAX_PORTS: u32 = 256;

/// The most slots of a turn.
pub const MAX_SLOTS: u32 = 65_536;

/// The most different functions of a logic processor.
pub const MAX_FUNCTIONS: u32 = 4096;

/// The most nodes of a logic processor. No netlist has more.
pub const MAX_NODES: u32 = 4_194_304;

/// The most bits of an array processor.
pub const MAX_ARRAY_BITS: u32 = 16_777_216;

/// The most banks of a crossbar: how many turns a processor may run ahead of its readers.
pub const MAX_BANKS: u32 = 8;

/// The most workers that a machine's ports may be dealt to.
pub const MAX_WORKERS: u32 = 64;

/// The most gates of a generated design.
pub const MAX_LARGE_GATES: u32 = 30_000;

/// The most cycles that a generated design is run for.
pub const MAX_LARGE_CYCLES: u32 = 10_000;

/// The lanes of a packed run: how many simulations of one design run side by side.
pub const LANES: usize = 30;

/// The most bits of all memories of a design whose lanes run at once: each lane has its own content.
pub const MAX_PACK_BITS: u64 = 16_777_216;

/// The most signals of a netlist whose stuck faults are listed.
pub const MAX_FAULT_SIGNALS: u64 = 65_536;

/// The most cycles of a block, after which the rows of a run are written. A cycle of `n` cells, its inputs and
/// its printed columns, makes a block shorter where `MAX_CELLS / n` is less, down to one cycle.
pub const MAX_BLOCK: u32 = 4096;

/// The turns of a cycle where none are given.
pub const DEFAULT_UNITS: u32 = 1;

/// The banks of a crossbar where none are given.
pub const DEFAULT_BANKS: u32 = 1;

/// The workers where none are given.
pub const DEFAULT_WORKERS: u32 = 4;

/// The logic processors of a machine whose text gives none.
pub const DEFAULT_LOGIC: u32 = 4;

/// The array processors of a machine whose text gives none.
pub const DEFAULT_ARRAY: u32 = 1;

/// The functions of a logic processor whose machine's text gives none.
pub const DEFAULT_FUNCTIONS: u32 = 256;

/// The bits of an array processor whose machine's text gives none.
pub const DEFAULT_ARRAY_BITS: u32 = 65_536;

/// The logic processors of the machine that a generated design is run on.
pub const LARGE_LOGIC: u32 = 16;

/// Whether a text of so many bytes may be read.
pub fn fits_text(bytes: usize) -> bool
    ensures { IsTrue result ↔ (bytes ≤ MAX_TEXT_BYTES) }
{
    bytes <= MAX_TEXT_BYTES
}
