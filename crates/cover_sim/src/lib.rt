//! Coverage: which values each signal of a netlist has, and which changes it makes, at the ends of the cycles of
//! the reference simulation; and the lines of that.
//!
//! ```
//! let marks = cover(alloc, &net, &ranks, &timing, &stim)?; // whether each signal was 0, was 1, rose and fell
//! let lines = cover_lines(alloc, &net, marks.as_slice())?; // "z 01rf\n" for a `z` that did all four, and so on
//! ```
#![tactic(auto)]

ghost use Rattle.std.specs.Prelude.{IfOk};
ghost use Rattle.net_defs.specs.{Loops.AreRanks, Valid.IsValid, Valid.IsValidTiming};
ghost use Rattle.cover_sim.specs.{Growth.CutIsBeginning, Growth.MarksGrow, Marks.AreMarks, Marks.HaveOneCoverage};

mod lines;
mod marks;
mod watching;

pub use lines::cover_lines;
pub use marks::Marks;
use net_defs::{Netlist, Ranks, Stimulus, Timing};
use ref_sim::observe;
use seen_list::{List, Memory};
use std::alloc::Global;
use watching::Watching;

/// The marks of each signal in signal order. What it takes of memory doesn't grow with the cycles.
pub fn cover(
    alloc: Global,
    net: &Netlist,
    ranks: &Ranks,
    timing: &Timing,
    stim: &Stimulus,
) -> Result<List<Marks>, Memory>
    requires valid { IsValid net.now }
    requires timing { IsValidTiming timing.now }
    requires ranks { AreRanks net.now timing.now ranks.now }
    ensures { IfOk result (AreMarks net.now timing.now stim.now) }
{
    let mut watching = Watching::new(alloc, net)?;
    observe(
        alloc,
        &mut watching,
        net,
        timing,
        stim,
        ranks.order.as_slice(),
    )?;
    Ok(watching.marks)
}

/// A law: where the netlist has no loop, there is exactly one list of marks under each stimulus. It does nothing.
pub fn one_coverage()
    ensures { HaveOneCoverage }
{}

/// A law: the marks of a stimulus contain those of each of its beginnings, so coverage only grows while a run goes
/// on; and where rows are cut off from the end of a stimulus, what is left is a beginning of it. It does nothing.
pub fn marks_grow()
    ensures grow { MarksGrow }
    ensures cut { CutIsBeginning }
{}
