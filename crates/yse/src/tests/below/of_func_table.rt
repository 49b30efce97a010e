//! Calls of `func_table`.

ghost use Rattle.std.specs.Prelude.{◌≤◌};

use func_table::{Shelf, table_of};
use logic_four::{Kind, allows};
use std::alloc::Global;

/// Entries of a table of `Nand` with two operands, and their codes: where each entry is kept.
const CODES: &[(u32, u64)] = &[(0, 1), (5, 0), (6, 2), (8, 1), (15, 2)];

fn codes() -> &'static [(u32, u64)] {
    CODES
}

#[test]
fn entries_stand_in_order(rt: HostRuntime) {
    let word = table_of(Kind::Nand, 2).words[0];
    for (entry, code) in codes() {
        assert!(rt; word.wrapping_shr(entry.wrapping_mul(2)) & 3 == *code);
    }
}

const KINDS: [Kind; 10] = [
    Kind::And,
    Kind::Nand,
    Kind::Or,
    Kind::Nor,
    Kind::Xor,
    Kind::Xnor,
    Kind::Not,
    Kind::Buf,
    Kind::Tri,
    Kind::Bus,
];

/// Whether the table of so many operands, if the kind allows them, has one number each time it is asked for. A shelf of
/// 31 tables takes no more.
fn has_one_number(shelf: &mut Shelf, kind: Kind, operands: u32) -> bool
    requires { operands ≤ 4 }
{
    if !allows(kind, operands as usize) {
        return true;
    }
    if shelf.tables.len() >= 31 {
        return false;
    }
    match shelf.intern(table_of(kind, operands)) {
        Ok(number) => shelf.intern(table_of(kind, operands)) == Ok(number),
        Err(_) => false,
    }
}

/// Whether each table of a kind with up to four operands has one number.
fn have_one_number(shelf: &mut Shelf, kind: Kind) -> bool {
    let mut all = true;
    for operands in 1..5u32 {
        if !has_one_number(shelf, kind, operands) {
            all = false;
        }
    }
    all
}

/// The number of tables of all kinds with up to four operands; 0 where one has two numbers.
fn count_tables(alloc: Global) -> usize {
    let mut shelf = Shelf::new(alloc);
    let mut all = true;
    for kind in KINDS {
        if !have_one_number(&mut shelf, kind) {
            all = false;
        }
    }
    let count = shelf.tables.len();
    drop(shelf);
    if all { count } else { 0 }
}

/// Equal tables have one number. With one operand six kinds are like `Buf` or like `Not`, and `Bus`
/// is like neither; with two to four, seven kinds have three tables each; and `Tri` has one.
#[test]
fn kinds_have_25_tables(rt: HostRuntime) {
    assert!(rt; count_tables(rt.alloc()) == 25);
}
