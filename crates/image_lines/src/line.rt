//! What a line of an image text says.

use func_table::Table;
use image_defs::{BlockWork, InColumn, LinkIn, LinkOut, OutBit, Source, Task};
use net_defs::Init;
use seen_list::Memory;

/// The kinds of port.
#[derive(Clone, Copy)]
pub enum PortKind {
    Logic,
    Array,
    Host,
}

/// What the second line of a text says of the whole image.
#[derive(Clone, Copy)]
pub struct Sizes {
    pub slots: u32,
    pub units: u32,
    pub init: Init,
    pub columns: u32,
    /// The number of ports that follow.
    pub ports: u32,
}

/// What a line says.
#[derive(Drop)]
pub enum Line {
    /// The first line, which names the text and its version.
    Version,
    /// The second line.
    Head(Sizes),
    /// The head of a port.
    Port(PortKind),
    /// A table of a logic processor.
    Table(Table),
    /// A task of a logic processor, and the item that it claims to compute.
    Work { task: Task, item: u32 },
    /// A memory of an array processor.
    Block(BlockWork),
    /// An output bit of an array processor, and the item that it claims to be.
    Bit { bit: OutBit, item: u32 },
    /// An input of the host, and the item that it claims to be.
    Input { input: InColumn, item: u32 },
    /// A source that the host prints.
    Print(Source),
    /// A link out of the port.
    Send(LinkOut),
    /// A link into the port.
    Take(LinkIn),
    /// The last line.
    End,
}

/// Why a line is refused.
#[derive(Clone, Copy)]
pub enum LineNo {
    /// It has none of the forms.
    Syntax,
    Memory,
}

impl From<Memory> for LineNo {
    ghost use Rattle.std.specs.Prelude.{◌≡◌};
    ghost use Rattle.image_lines.specs.declared.line.LineNo.TheVariants.{Memory as NoMemory};

    ghost from_gives = { λ _ e. e ≡ NoMemory };

    fn from(_refused: Memory) -> LineNo {
        LineNo::Memory
    }
}
