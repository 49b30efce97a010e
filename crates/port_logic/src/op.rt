//! Tasks laid flat: each operand is a number of a bank, and each gate says what its table is known as.

ghost use Rattle.std.specs.Prelude.{◌≡◌, ◌<◌, ◌≤◌, length, slice_get, IfOk};
ghost use Rattle.limits.specs.declared.TheConstants.{MAX_SLOTS};
ghost use Rattle.image_defs.specs.Places.{Each};
ghost use Rattle.port_bank.specs.Flat.{IsWithin};
ghost use Rattle.port_logic.specs.Ops.{AreOps, IsFormIn, IsGate, IsOp};
ghost use Rattle.port_logic.specs.code.Ops.{AreForms, IsLookOf, IsTaskWithin, IsTabled};

use func_table::Table;
use image_defs::{Source, Task};
use port_bank::Word;
use port_bank::steps::{Operand, operand_of};
use seen_list::{List, Memory};
use std::alloc::{AllocError, Global};

/// What a task does, by operands of a bank.
pub(crate) enum Op<P, F> {
    /// Answers two operands, of a gate whose third and fourth operands are constants.
    Pair {
        pair: P,
        a: Operand,
        b: Operand,
    },
    /// Answers four operands by the table of this number, which is known as this.
    Look {
        form: F,
        table: u32,
        a: Operand,
        b: Operand,
        c: Operand,
        d: Operand,
    },
    /// Holds a register, which takes this operand at an edge.
    Keep {
        from: Operand,
    },
}

impl<P: Copy, F: Copy> Copy for Op<P, F> {}

impl<P: Copy, F: Copy> Clone for Op<P, F> {
    ghost is_clone = { λ op copy. copy ≡ op };

    fn clone(&self) -> Result<Op<P, F>, AllocError> {
        Ok(*self)
    }
}

/// What each of the tables is known as, in order.
pub(crate) fn forms_of<W: Word>(alloc: Global, tables: &[Table]) -> Result<List<W::Form>, Memory>
    ensures { IfOk result (AreForms W.is_form tables.now) }
{
    let mut forms = List::new(alloc);
    'tables: for table in tables {
        forms.push(W::form_of(table))?;
    }
    Ok(forms)
}

/// That of a gate of any operands.
fn look_of<W: Word>(
    slots: u32,
    form: W::Form,
    table: u32,
    a: Source,
    b: Source,
    c: Source,
    d: Source,
) -> Op<W::Pair, W::Form>
    requires few { slots ≤ MAX_SLOTS }
    requires a { IsWithin slots a }
    requires b { IsWithin slots b }
    requires c { IsWithin slots c }
    requires d { IsWithin slots d }
    ensures { IsLookOf slots form table a b c d result }
{
    Op::Look {
        form,
        table,
        a: operand_of(slots, a),
        b: operand_of(slots, b),
        c: operand_of(slots, c),
        d: operand_of(slots, d),
    }
}

/// That of a gate whose table is known as this.
fn gate_of<W: Word>(
    slots: u32,
    form: W::Form,
    tables: &[Table],
    table: u32,
    a: Source,
    b: Source,
    c: Source,
    d: Source,
) -> Op<W::Pair, W::Form>
    requires few { slots ≤ MAX_SLOTS }
    requires tabled { table < length tables.now }
    requires form { IsFormIn W.is_form (slice_get tables.now table) form }
    requires a { IsWithin slots a }
    requires b { IsWithin slots b }
    requires c { IsWithin slots c }
    requires d { IsWithin slots d }
    ensures { IsGate W.is_pair W.is_form slots tables.now table a b c d result }
{
    if let Source::Const(third) = c {
        if let Source::Const(fourth) = d {
            if let Some(pair) = W::pair_of(form, &tables[table as usize], third, fourth) {
                return Op::Pair {
                    pair,
                    a: operand_of(slots, a),
                    b: operand_of(slots, b),
                };
            }
        }
    }
    look_of::<W>(slots, form, table, a, b, c, d)
}

/// That of a task, where a turn has so many slots and the tables are known as these.
fn op_of<W: Word>(
    slots: u32,
    tables: &[Table],
    forms: &[W::Form],
    task: &Task,
) -> Op<W::Pair, W::Form>
    requires few { slots ≤ MAX_SLOTS }
    requires forms { AreForms W.is_form tables.now forms.now }
    requires within { IsTaskWithin slots task.now }
    requires tabled { IsTabled (length tables.now) task.now }
    ensures { IsOp W.is_pair W.is_form slots tables.now task.now result }
{
    match task {
        Task::Eval {
            table,
            a,
            b,
            c,
            d,
            ..
        } => gate_of::<W>(
            slots,
            forms[*table as usize],
            tables,
            *table,
            *a,
            *b,
            *c,
            *d,
        ),
        Task::Hold { from, .. } => Op::Keep {
            from: operand_of(slots, *from),
        },
    }
}

/// Those of the tasks, in order, where a turn has so many slots and the tables are known as these.
pub(crate) fn ops_of<W: Word>(
    alloc: Global,
    slots: u32,
    tables: &[Table],
    forms: &[W::Form],
    tasks: &[Task],
) -> Result<List<Op<W::Pair, W::Form>>, Memory>
    requires few { slots ≤ MAX_SLOTS }
    requires forms { AreForms W.is_form tables.now forms.now }
    requires within { Each (IsTaskWithin slots) tasks.now }
    requires tabled { Each (IsTabled (length tables.now)) tasks.now }
    ensures { IfOk result (AreOps W.is_pair W.is_form slots tables.now tasks.now) }
{
    let mut ops = List::new(alloc);
    'tasks: for task in tasks {
        ops.push(op_of::<W>(slots, tables, forms, task))?;
    }
    Ok(ops)
}
