//! Tables in all lanes at once.

ghost use Rattle.std.specs.Prelude.{◌≡◌, ◌<◌, ℕ, IsTrue};
ghost use Rattle.limits.specs.declared.TheConstants.{LANES};
ghost use Rattle.func_table.specs.Entries.{entry_for};
ghost use Rattle.lane_planes.specs.{Lanes.lane_of, Forms.IsForm};

use crate::Planes;
use crate::gates::gate_planes;
use crate::lanes::{in_each_lane, lane};
use func_table::{Table, table_of};
use logic_four::{Kind, V4, allows};

/// The kinds of gates.
const KINDS: [Kind; 10] = [
    Kind::And,
    Kind::Nand,
    Kind::Or,
    Kind::Nor,
    Kind::Xor,
    Kind::Xnor,
    Kind::Not,
    Kind::Buf,
    Kind::Tri,
    Kind::Bus,
];

/// How a table is answered in all lanes at once.
#[derive(Clone, Copy, PartialEq, Eq)]
pub enum TableForm {
    /// It is the table of a gate.
    Gate { kind: Kind, operands: u32 },
    /// It is looked up lane by lane.
    Other,
}

/// Whether two tables are equal.
fn is_equal(table: &Table, other: &Table) -> bool
    ensures { IsTrue result → table.now ≡ other.now }
{
    table == other
}

/// The form of the table if it is that of this gate.
fn gate_form(table: &Table, kind: Kind, operands: u32) -> TableForm
    ensures { IsForm table.now result }
{
    if operands <= 4
        && allows(kind, operands as usize)
        && is_equal(table, &table_of(kind, operands))
    {
        TableForm::Gate { kind, operands }
    } else {
        TableForm::Other
    }
}

/// The form of a table: a gate whose table it is, or `Other`. It makes up to forty tables, so keep the form of a
/// table that is asked often.
pub fn form_of(table: &Table) -> TableForm
    ensures { IsForm table.now result }
{
    for operands in 1..5 {
        for kind in KINDS {
            let form = gate_form(table, kind, operands);
            if form != TableForm::Other {
                return form;
            }
        }
    }
    TableForm::Other
}

/// What a table answers in each lane for four operands, looked up lane by lane.
fn look_up(table: &Table, a: Planes, b: Planes, c: Planes, d: Planes) -> Planes
    ensures { (k : ℕ) → k < LANES → lane_of result k ≡ entry_for table.now (lane_of a k) (lane_of b k) (lane_of c k) (lane_of d k) }
{
    in_each_lane(
        |k: u32| -> V4
            requires { k < LANES }
            ensures { result ≡ entry_for table.entry.now (lane_of a k) (lane_of b k) (lane_of c k) (lane_of d k) }
        { table.eval(lane(a, k), lane(b, k), lane(c, k), lane(d, k)) },
    )
}

/// What a table of this form answers in each lane for four operands.
#[inline]
pub fn eval_form(
    form: TableForm,
    table: &Table,
    a: Planes,
    b: Planes,
    c: Planes,
    d: Planes,
) -> Planes
    requires { IsForm table.now form }
    ensures { (k : ℕ) → k < LANES → lane_of result k ≡ entry_for table.now (lane_of a k) (lane_of b k) (lane_of c k) (lane_of d k) }
{
    match form {
        TableForm::Gate { kind, operands } => gate_planes(kind, operands, a, b, c, d),
        TableForm::Other => look_up(table, a, b, c, d),
    }
}

/// What a table answers in each lane for four operands. It finds the table's form first, which takes
/// much longer than the answer: `eval_form` does without.
pub fn eval_planes(table: &Table, a: Planes, b: Planes, c: Planes, d: Planes) -> Planes
    ensures { (k : ℕ) → k < LANES → lane_of result k ≡ entry_for table.now (lane_of a k) (lane_of b k) (lane_of c k) (lane_of d k) }
{
    eval_form(form_of(table), table, a, b, c, d)
}
