//! The summary of a run of a large design.

ghost use Rattle.std.specs.Prelude.{◌≡◌, ◌+◌, ◌<◌, ◌^◌, ◌-◌, ◌++◌, [], List as Items, IfOk, OnOk, length, decimal};
ghost use Rattle.logic_four.specs.declared.V4.{V4 as Value};
ghost use Rattle.large_run.specs.Summaries.{counts_of, plan_line, cells_line, summary_text as text_of};
ghost use Rattle.large_run.specs.code.Summaries.{with_cell};

use logic_four::V4;
use seen_list::{Memory, Text};
use std::alloc::Global;

/// How many printed cells have each value.
#[derive(Clone, Copy)]
pub struct CellCounts {
    pub zeros: u64,
    pub ones: u64,
    pub xs: u64,
    pub zs: u64,
}

/// What the summary of a run tells.
#[derive(Clone, Copy)]
pub struct Summary {
    /// The gates that were asked for.
    pub gates: u64,
    /// The nodes and latches among the items.
    pub nodes: u64,
    /// The slots that a turn wants.
    pub slots: u64,
    /// The pairs of an item and a port that reads it.
    pub crossings: u64,
    pub cells: CellCounts,
}

impl CellCounts {
    /// Of no cells.
    pub fn none() -> CellCounts
        ensures { result ≡ counts_of [] }
    {
        CellCounts {
            zeros: 0,
            ones: 0,
            xs: 0,
            zs: 0,
        }
    }

    /// Counts these cells too.
    pub fn add(&mut self, cells: &[V4])
        requires { length cells.now + self.old.zeros + self.old.ones + self.old.xs + self.old.zs < 2 ^ 64 }
        ensures { (before : Items Value) → self.old ≡ counts_of before → self.new ≡ counts_of (before ++ cells.now) }
    {
        for cell in cells {
            self.count(*cell);
        }
    }

    /// Counts one cell more.
    fn count(&mut self, cell: V4)
        requires { self.old.zeros + self.old.ones + self.old.xs + self.old.zs < 2 ^ 64 - 1 }
        ensures { self.new ≡ with_cell self.old cell }
    {
        match cell {
            V4::Zero => self.zeros += 1,
            V4::One => self.ones += 1,
            V4::Undef => self.xs += 1,
            V4::HighZ => self.zs += 1,
        }
    }
}

/// The two lines of the summary.
pub fn summary_text(alloc: Global, summary: &Summary) -> Result<Text, Memory>
    ensures { IfOk result (λ text. text ≡ text_of summary.now) }
{
    let mut text = Text::new(alloc);
    push_plan(&mut text, summary)?;
    push_cells(&mut text, &summary.cells)?;
    Ok(text)
}

#[tactic(auto, unfolding(crate::specs::Summaries::plan_line))]
fn push_plan(text: &mut Text, summary: &Summary) -> Result<(), Memory>
    ensures { OnOk result (text.new ≡ text.old ++ plan_line summary.now) }
{
    push_pair(text, b"gates ", summary.gates, b" nodes ", summary.nodes)?;
    push_pair(
        text,
        b" slots ",
        summary.slots,
        b" crossings ",
        summary.crossings,
    )?;
    text.push_bytes(b"\n")?;
    Ok(())
}

#[tactic(auto, unfolding(crate::specs::Summaries::cells_line))]
fn push_cells(text: &mut Text, cells: &CellCounts) -> Result<(), Memory>
    ensures { OnOk result (text.new ≡ text.old ++ cells_line cells.now) }
{
    push_pair(text, b"zeros ", cells.zeros, b" ones ", cells.ones)?;
    push_pair(text, b" xs ", cells.xs, b" zs ", cells.zs)?;
    text.push_bytes(b"\n")?;
    Ok(())
}

/// Adds two words, each with a number.
fn push_pair(
    text: &mut Text,
    first: &[u8],
    one: u64,
    second: &[u8],
    other: u64,
) -> Result<(), Memory>
    ensures { OnOk result (text.new ≡ text.old ++ (first.now ++ decimal one ++ second.now ++ decimal other)) }
{
    text.push_bytes(first)?;
    text.push_decimal(one)?;
    text.push_bytes(second)?;
    text.push_decimal(other)
}
