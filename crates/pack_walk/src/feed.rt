//! What the inputs have, cycle by cycle.

ghost use Rattle.std.specs.Prelude.{ℕ, ◌≡◌, ◌+◌, ◌<◌, length, IfOk};
ghost use Rattle.limits.specs.declared.TheConstants.{MAX_CYCLES};
ghost use Rattle.stim_text.specs.Lanes.{AreLanes};
ghost use Rattle.pack_walk.specs.code.Feeds.{fed, AreAt, AreFed, HaveColumn, IsFed};

use crate::rows::{first_rows, next_rows, row_value};
use lane_planes::{Planes, in_all_lanes, in_each_lane};
use logic_four::V4;
use port_host::cursor::RowCursor;
use seen_list::{List, Memory};
use std::alloc::Global;
use std::marker::Model;
use stim_text::Lanes;

/// What the inputs have in all lanes, cycle by cycle. It looks at the rows of a cycle once, when the cycle
/// begins. A contract sees the lanes, and how many cycles are over.
#[derive(Drop)]
pub(crate) struct Feed<'a> {
    lanes: &'a Lanes,
    cycles: u32,
    cursors: List<RowCursor>,
    columns: List<Planes>,
    width: u32,
}

impl<'a> Model for Feed<'a> {
    ghost use Rattle.pack_walk.specs.code.Feeds.{FeedView};

    ghost Value = { FeedView };

    ghost use Rattle.pack_walk.specs.code.Feeds.{IsKept, view_of};

    ghost view = { view_of };

    ghost invariant = { IsKept };
}

/// The value of a column in a lane, and X where the lane isn't given or its rows are over.
fn lane_value(lanes: &Lanes, cursors: &[RowCursor], lane: u32, column: u32) -> V4
    requires lanes { HaveColumn lanes.now column }
    requires cursors { length cursors.now ≡ length lanes.now.lanes }
    ensures { (columns n : ℕ) → AreAt lanes.now.lanes n cursors.now
        → result ≡ fed columns lanes.now n column lane }
{
    match lanes.lanes.get(lane as usize) {
        Some(stim) => row_value(stim, cursors[lane as usize], column),
        None => V4::Undef,
    }
}

/// The values of a column in all lanes.
fn column_value(lanes: &Lanes, cursors: &[RowCursor], column: u32) -> Planes
    requires lanes { HaveColumn lanes.now column }
    requires cursors { length cursors.now ≡ length lanes.now.lanes }
    ensures { (columns n : ℕ) → AreAt lanes.now.lanes n cursors.now
        → IsFed columns lanes.now n column result }
{
    in_each_lane(
        |lane: u32| -> V4
            requires lanes { HaveColumn lanes.now column }
            requires cursors { length cursors.now ≡ length lanes.now.lanes }
            ensures { (columns n : ℕ) → AreAt lanes.entry.now.lanes n cursors.entry.now
                → result ≡ fed columns lanes.entry.now n column lane }
        { lane_value(lanes, cursors, lane, column) },
    )
}

/// Gives each of so many columns its values.
fn fill(columns: &mut List<Planes>, count: u32, lanes: &Lanes, cursors: &[RowCursor])
    requires count { count ≡ length columns.old }
    requires lanes { AreLanes count lanes.now }
    requires cursors { length cursors.now ≡ length lanes.now.lanes }
    ensures long { length columns.new ≡ length columns.old }
    ensures fed { (n : ℕ) → AreAt lanes.now.lanes n cursors.now
        → AreFed count lanes.now n count columns.new }
{
    'columns: for c in 0..count {
        columns.set(c as usize, column_value(lanes, cursors, c));
    }
}

impl<'a> Feed<'a> {
    /// The lanes at the first cycle. It takes memory for so many columns, and for a place in each lane.
    pub(crate) fn new(alloc: Global, lanes: &'a Lanes, columns: u32) -> Result<Feed<'a>, Memory>
        requires { AreLanes columns lanes.now }
        ensures { IfOk result (λ feed. feed
            ≡ record { lanes = lanes.now; columns = columns; cycles = 0 }) }
    {
        let cursors = first_rows(alloc, lanes.lanes.as_slice())?;
        let mut planes = List::filled(alloc, in_all_lanes(V4::Undef), columns as usize)?;
        fill(&mut planes, columns, lanes, cursors.as_slice());
        Ok(Feed {
            lanes,
            cycles: 0,
            cursors,
            columns: planes,
            width: columns,
        })
    }

    /// The number of cycles that are over.
    pub(crate) fn cycles(&self) -> u32
        ensures { result ≡ self.now.cycles }
    {
        self.cycles
    }

    /// The values of a column in this cycle.
    #[inline]
    pub(crate) fn value(&self, column: u32) -> Planes
        requires { column < self.now.columns }
        ensures { IsFed self.now.columns self.now.lanes self.now.cycles column result }
    {
        self.columns.as_slice()[column as usize]
    }

    /// Begins the next cycle.
    pub(crate) fn go_on(&mut self)
        requires { self.old.cycles < MAX_CYCLES }
        ensures { self.new ≡ record self.old { cycles = self.old.cycles + 1 } }
    {
        next_rows(self.lanes.lanes.as_slice(), &mut self.cursors);
        fill(
            &mut self.columns,
            self.width,
            self.lanes,
            self.cursors.as_slice(),
        );
        self.cycles += 1;
    }
}
