//! What the lines of a text say, flat: the names that they drive and use stand in one list each.

ghost use Rattle.std.specs.Prelude.{[]};
ghost use Rattle.bench_read.specs.code.Storing.{Stores};

use crate::names::Names;
use logic_four::Kind;
use seen_list::List;
use std::alloc::Global;

/// What a line does, with the numbers of its names.
#[derive(Clone, Copy)]
pub enum Act {
    /// The stimulus drives the name.
    Input,
    /// The name is printed.
    Output,
    /// A gate drives the name, from so many.
    Gate { kind: Kind, uses: u32 },
    /// A register drives the name, from one.
    Register,
    /// A memory drives so many names, from its write enable, so many address bits and so many data bits.
    Memory { outs: u32, address: u32, words: u32 },
}

/// What a line does, and the line's number.
#[derive(Clone, Copy)]
pub struct Statement {
    pub act: Act,
    pub at: u32,
}

/// A name that a line drives, and the line's number.
#[derive(Clone, Copy)]
pub struct DrivenName<'a> {
    pub name: &'a [u8],
    pub at: u32,
}

/// What the lines of a text say.
#[derive(Drop)]
pub struct Draft<'a> {
    /// In file order.
    pub statements: List<Statement>,
    /// The names that the lines drive, in file order.
    pub drivers: List<DrivenName<'a>>,
    /// The names that the lines use, in file order.
    pub uses: List<&'a [u8]>,
    /// Those of `drivers`, to be found.
    pub names: Names<'a>,
    /// How many operands the lines have.
    pub operands: usize,
}

impl<'a> Draft<'a> {
    /// The draft of no lines.
    pub fn new(alloc: Global) -> Draft<'a>
        ensures { Stores result [] }
    {
        Draft {
            statements: List::new(alloc),
            drivers: List::new(alloc),
            uses: List::new(alloc),
            names: Names::new(alloc),
            operands: 0,
        }
    }
}
