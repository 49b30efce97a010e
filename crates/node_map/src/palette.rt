//! Tables, each made once for its kind and number of operands.

ghost use Rattle.std.specs.Prelude.{◌≡◌, ◌+◌, ◌^◌, ◌<◌, ◌≤◌, ℕ, [], length, slice_get, OnOk, IfOk, IfSome};
ghost use Rattle.logic_four.specs.Kinds.{AllowsOperands};
ghost use Rattle.node_map.specs.code.Tables.{Keeps, AddsOnly, HasTable, AreMadeIn};

use func_table::{Shelf, table_of};
use logic_four::Kind;
use seen_list::{List, Memory};
use std::alloc::Global;

/// The number of the table of a kind and a number of operands.
#[derive(Clone, Copy)]
pub(crate) struct Made {
    pub kind: Kind,
    pub operands: u32,
    pub number: u32,
}

/// The tables so far, and which of them is that of each kind and number of operands.
#[derive(Drop)]
pub(crate) struct Palette {
    pub made: List<Made>,
    pub shelf: Shelf,
}

fn find(made: &[Made], kind: Kind, operands: u32) -> Option<u32>
    ensures { IfSome result (λ number. (i : ℕ) × (slice_get made.now i ≡ Some (record { kind = kind; operands = operands; number = number }))) }
{
    'made: for one in made {
        if one.kind == kind && one.operands == operands {
            return Some(one.number);
        }
    }
    None
}

impl Palette {
    pub(crate) fn new(alloc: Global) -> Palette
        ensures made { result.made ≡ [] }
        ensures tables { result.shelf.tables ≡ [] }
    {
        Palette {
            made: List::new(alloc),
            shelf: Shelf::new(alloc),
        }
    }

    /// The number of the table of a kind and a number of operands.
    pub(crate) fn number(&mut self, kind: Kind, operands: u32) -> Result<u32, Memory>
        requires few { operands ≤ 4 }
        requires allowed { AllowsOperands kind operands }
        requires room { length self.old.shelf.tables + 1 < 2 ^ 32 }
        requires known { AreMadeIn self.old.shelf.tables self.old.made }
        ensures known { OnOk result (AreMadeIn self.new.shelf.tables self.new.made) }
        ensures number { IfOk result (HasTable self.new.shelf.tables kind operands) }
        ensures kept { OnOk result (Keeps self.old.shelf.tables self.new.shelf.tables) }
        ensures added { IfOk result (AddsOnly self.old.shelf.tables self.new.shelf.tables) }
    {
        match find(self.made.as_slice(), kind, operands) {
            Some(number) => Ok(number),
            None => self.make(kind, operands),
        }
    }

    fn make(&mut self, kind: Kind, operands: u32) -> Result<u32, Memory>
        requires few { operands ≤ 4 }
        requires allowed { AllowsOperands kind operands }
        requires room { length self.old.shelf.tables + 1 < 2 ^ 32 }
        requires known { AreMadeIn self.old.shelf.tables self.old.made }
        ensures known { OnOk result (AreMadeIn self.new.shelf.tables self.new.made) }
        ensures number { IfOk result (HasTable self.new.shelf.tables kind operands) }
        ensures kept { OnOk result (Keeps self.old.shelf.tables self.new.shelf.tables) }
        ensures added { IfOk result (AddsOnly self.old.shelf.tables self.new.shelf.tables) }
    {
        let number = self.shelf.intern(table_of(kind, operands))?;
        self.made.push(Made {
            kind,
            operands,
            number,
        })?;
        Ok(number)
    }
}
