//! The marks of all signals while a run goes on.

ghost use Rattle.std.specs.Prelude.{◌≡◌, [], length, true, IfOk};
ghost use Rattle.cover_sim.specs.code.Watching.{AreMarkedTo, HaveMarks};

use crate::marks::{Marks, marks_after};
use logic_four::V4;
use net_defs::Netlist;
use ref_sim::Observer;
use seen_list::{List, Memory};
use std::alloc::Global;

/// The marks so far, and the values at the end of the last cycle.
#[derive(Drop)]
pub(crate) struct Watching {
    pub(crate) marks: List<Marks>,
    last: List<V4>,
}

impl Watching {
    /// Before the first cycle no signal has a mark, and each is undefined.
    pub(crate) fn new(alloc: Global, net: &Netlist) -> Result<Watching, Memory>
        ensures { IfOk result (λ watching. HaveMarks net.now watching.marks watching.last []) }
    {
        let count = net.signals.len();
        let none = Marks {
            zero: false,
            one: false,
            rise: false,
            fall: false,
        };
        let marks = List::filled(alloc, none, count)?;
        let last = List::filled(alloc, V4::Undef, count)?;
        Ok(Watching { marks, last })
    }
}

impl Observer<V4> for Watching {
    ghost has_seen = { λ watching net seen left. HaveMarks net watching.marks watching.last seen };

    ghost goes_on = { λ watching. true };

    ghost size = { λ watching. length watching.marks };

    /// Marks what each signal did.
    fn look(&mut self, net: &Netlist, row: &[V4]) -> bool {
        mark(self.marks.as_mut_slice(), self.last.as_slice(), row);
        self.last.as_mut_slice().copy_from_slice(row);
        true
    }
}

/// Adds to the marks of each signal what a cycle with this row adds, where the last one ended with that.
fn mark(marks: &mut [Marks], last: &[V4], row: &[V4])
    requires last { length last.now ≡ length marks.old }
    requires row { length row.now ≡ length marks.old }
    ensures { AreMarkedTo (length marks.old) last.now row.now marks.old marks.new }
{
    'signals: for s in 0..marks.len() {
        marks[s] = marks_after(marks[s], last[s], row[s]);
    }
}
