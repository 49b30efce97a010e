//! The printed values of all cycles, in room that is taken before the first turn.

ghost use Rattle.std.specs.Prelude.{◌≡◌, ◌+◌, ◌<◌, ◌≤◌, [], length, slice_set, IfOk, OnOk, All, true};
ghost use Rattle.net_defs.specs.{Time.cycle_count, Valid.IsSignal};
ghost use Rattle.ref_sim.specs.code.Runs.{printed_row, AreWide, ArePrinted, HasRows};

use crate::observer::Observer;
use logic_four::V4;
use net_defs::{CellRow, Netlist, Stimulus};
use net_ops::gather;
use seen_list::{List, Memory};
use std::alloc::Global;

/// A row for each cycle, of which so many are printed.
#[derive(Drop)]
pub(crate) struct Printing {
    pub(crate) rows: List<CellRow>,
    done: usize,
}

impl Printing {
    /// Before the first cycle, with an undefined value for each printed signal of each cycle.
    pub(crate) fn new(alloc: Global, net: &Netlist, stim: &Stimulus) -> Result<Printing, Memory>
        ensures { IfOk result (λ printing. ArePrinted net.now printing.rows printing.done [] (cycle_count stim.now)) }
    {
        let rows = undefined_rows(alloc, net, stim)?;
        Ok(Printing { rows, done: 0 })
    }
}

impl Observer<V4> for Printing {
    ghost has_seen = { λ printing net seen left. ArePrinted net printing.rows printing.done seen left };

    ghost goes_on = { λ printing. true };

    ghost size = { λ printing. length printing.rows };

    /// Prints the values into the row of the cycle.
    fn look(&mut self, net: &Netlist, row: &[V4]) -> bool {
        print_row(&mut self.rows.as_mut_slice()[self.done], net, row);
        self.done += 1;
        true
    }
}

/// A row for each cycle, with an undefined value for each printed signal.
fn undefined_rows(alloc: Global, net: &Netlist, stim: &Stimulus) -> Result<List<CellRow>, Memory>
    ensures { IfOk result (HasRows net.now (cycle_count stim.now)) }
{
    let mut rows = List::new(alloc);
    for row in stim.rows.as_slice() {
        push_rows(alloc, &mut rows, net, row.times)?;
    }
    Ok(rows)
}

fn push_rows(
    alloc: Global,
    rows: &mut List<CellRow>,
    net: &Netlist,
    times: u32,
) -> Result<(), Memory>
    requires { AreWide net.now rows.old }
    ensures wide { AreWide net.now rows.new }
    ensures long { OnOk result (length rows.new ≡ length rows.old + times) }
{
    for _time in 0..times {
        rows.push(undefined_row(alloc, net)?)?;
    }
    Ok(())
}

fn undefined_row(alloc: Global, net: &Netlist) -> Result<CellRow, Memory>
    ensures { IfOk result (λ row. length row.cells ≡ length net.now.printed) }
{
    Ok(CellRow {
        cells: List::filled(alloc, V4::Undef, net.printed.len())?,
    })
}

/// Puts the printed values into the row of a cycle.
fn print_row(row: &mut CellRow, net: &Netlist, values: &[V4])
    requires wide { length row.old.cells ≡ length net.now.printed }
    requires printed { All (IsSignal net.now) net.now.printed }
    requires long { length values.now ≡ length net.now.signals }
    ensures { row.new ≡ printed_row net.now values.now }
{
    gather(
        row.cells.as_mut_slice(),
        values,
        0,
        net.printed.as_slice(),
        0,
    );
}
