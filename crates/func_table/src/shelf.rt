//! Tables that share a number where they are equal.

ghost use Rattle.std.specs.Prelude.{◌≡◌, ◌+◌, ◌-◌, ◌^◌, ◌<◌, [], All, MatchOption, IfOk, OnErr, Some, length, slice_get};
ghost use Rattle.std.specs.Bool.{MatchBool};
ghost use Rattle.func_table.specs.{Entries.AreOther, Shelf.AreDifferent, Shelf.IsNumbered};

use crate::table::{Table, entries_decide};
use seen_list::{List, Memory};
use std::alloc::Global;

/// Tables, no two of them equal. The number of a table is its place, counted from 0.
#[derive(Drop)]
pub struct Shelf {
    pub tables: List<Table>,
    pub ghost different: { AreDifferent tables },
}

/// Whether two tables are equal. They are where they have the same entries.
fn is_equal(table: &Table, other: &Table) -> bool
    ensures { MatchBool result (table.now ≡ other.now) (AreOther table.now other.now) }
{
    entries_decide(table, other);
    table == other
}

/// The place of a table that is equal to this one.
fn place_of_equal(tables: &[Table], table: &Table) -> Option<usize>
    ensures { MatchOption result (All (λ t. AreOther t table.now) tables.now) (λ n. slice_get tables.now n ≡ Some table.now) }
{
    for (place, other) in tables.iter().enumerate() {
        if is_equal(other, table) {
            return Some(place);
        }
    }
    None
}

impl Shelf {
    /// The empty shelf. It takes no memory, and keeps `alloc` for its growth.
    pub fn new(alloc: Global) -> Shelf
        ensures { result.tables ≡ [] }
    {
        Shelf {
            tables: List::new(alloc),
        }
    }

    /// The number of the table. It is put on the shelf if no equal one is there. Refused, the shelf is
    /// as before.
    pub fn intern(&mut self, table: Table) -> Result<u32, Memory>
        requires { length self.old.tables < 2 ^ 32 - 1 }
        ensures ok { IfOk result (IsNumbered table self.old.tables self.new.tables) }
        ensures number { IfOk result (λ n. slice_get self.new.tables n ≡ Some table) }
        ensures err { OnErr result (self.new.tables ≡ self.old.tables) }
    {
        match place_of_equal(self.tables.as_slice(), &table) {
            Some(place) => Ok(place as u32),
            None => {
                let next = self.tables.len() as u32;
                self.tables.push(table)?;
                Ok(next)
            }
        }
    }
}
