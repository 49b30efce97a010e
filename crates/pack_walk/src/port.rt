//! The packed host in its run.

ghost use Rattle.std.specs.Prelude.{ℕ, ◌≡◌, ◌+◌, ◌*◌, ◌<◌, ◌≤◌, length, IfOk, Some};
ghost use Rattle.limits.specs.declared.TheConstants.{LANES, MAX_CYCLES};
ghost use Rattle.image_defs.specs.Ports.{at_first, after_begin, after_execute, after_receive, after_end, value_in, CanBegin, CanExecute, CanReceive, CanEnd};
ghost use Rattle.image_defs.specs.{Places.host_of, WellFormed.IsWellFormed, Frames.shown};
ghost use Rattle.lane_planes.specs.Lanes.{lane_of};
ghost use Rattle.stim_text.specs.Lanes.{lane_stimulus, longest, AreLanes};
ghost use Rattle.port_host.specs.Rows.{printed_sources};
ghost use Rattle.port_bank.specs.Packed.{lane_port, InEachLane};
ghost use Rattle.pack_walk.specs.{Turns.cycles_done, code.Turns.turn_at};

use crate::cells::{cell, keep_row, room, row_start};
use crate::feed::Feed;
use image_defs::{Image, InColumn, Source, Work};
use lane_planes::Planes;
use logic_four::V4;
use port_bank::{Bank, Port};
use seen_list::{List, Memory};
use std::alloc::Global;
use std::marker::Model;
use stim_text::Lanes;

/// The packed host in its run. It keeps the cells of all cycles that are over. A contract sees whose image
/// and lanes it runs, and how far it has come.
#[derive(Drop)]
pub struct PackHost<'a> {
    bank: Bank<'a, Planes>,
    feed: Feed<'a>,
    units: u32,
    unit: u32,
    inputs: &'a [InColumn],
    printed: &'a [Source],
    cells: List<Planes>,
}

impl<'a> Model for PackHost<'a> {
    ghost use Rattle.port_bank.specs.Packed.{PackPortView};

    ghost Value = { PackPortView };

    ghost use Rattle.pack_walk.specs.Ready.{IsReady, view_of};

    ghost view = { view_of };

    ghost invariant = { IsReady };
}

/// One turn more, where a cycle has so many. Answers how many turns of the cycle are over.
fn turn_over(feed: &mut Feed<'_>, units: u32, unit: u32) -> u32
    requires unit { unit < units }
    requires more { feed.old.cycles < MAX_CYCLES }
    ensures unit { result < units }
    ensures turn { turn_at units feed.new.cycles result ≡ turn_at units feed.old.cycles unit + 1 }
    ensures few { feed.new.cycles ≤ feed.old.cycles + 1 }
    ensures feed { feed.new ≡ record feed.old { cycles = feed.new.cycles } }
{
    let next = unit + 1;
    if next == units {
        feed.go_on();
        0
    } else {
        next
    }
}

impl<'a> PackHost<'a> {
    /// The host before its first turn. It takes memory for four planes a slot, for one place a lane, and
    /// for the printed planes of all cycles of the longest lane: `Memory` also where they are more than
    /// can be counted. No later call takes any.
    pub fn new(alloc: Global, image: &'a Image, lanes: &'a Lanes) -> Result<PackHost<'a>, Memory>
        requires image { IsWellFormed image.now }
        requires lanes { AreLanes image.now.columns lanes.now }
        ensures { IfOk result (λ made. made ≡ at_first image.now lanes.now (host_of image.now)) }
    {
        let port = image.ports.len() - 1;
        let port_image = &image.ports.as_slice()[port];
        match &port_image.work {
            Work::Logic { .. } => unreachable!(),
            Work::Array { .. } => unreachable!(),
            Work::Host { inputs, printed } => {
                let cells = room(alloc, lanes.cycles(), printed.len())?;
                let feed = Feed::new(alloc, lanes, image.columns)?;
                let bank = Bank::new(alloc, image, lanes, port as u32)?;
                Ok(PackHost {
                    bank,
                    feed,
                    units: image.units,
                    unit: 0,
                    inputs: inputs.as_slice(),
                    printed: printed.as_slice(),
                    cells,
                })
            }
        }
    }

    /// Begins a turn.
    pub fn begin_turn(&mut self)
        requires { InEachLane CanBegin self.old }
        ensures { self.new ≡ after_begin self.old }
    {
        self.bank.begin_turn();
    }

    /// Executes the item in a slot, and answers its values: those of its input in this cycle.
    pub fn execute(&mut self, slot: u32) -> Planes
        requires { InEachLane (λ view. CanExecute view slot) self.old }
        ensures values { (l : ℕ) → l < LANES
            → lane_of result l ≡ value_in (lane_port l self.old) slot }
        ensures view { self.new ≡ after_execute self.old }
    {
        let input = self.inputs[self.bank.executed()];
        let values = self.feed.value(input.column);
        self.bank.execute(slot, values);
        values
    }

    /// Receives the values that are sent in a slot.
    pub fn receive(&mut self, slot: u32, values: Planes)
        requires { (l : ℕ) → l < LANES
            → CanReceive (lane_port l self.old) slot (lane_of values l) }
        ensures { self.new ≡ after_receive self.old }
    {
        self.bank.receive(slot, values);
    }

    /// Ends the turn. After the last turn of a cycle the host keeps the row that is printed.
    pub fn end_turn(&mut self)
        requires { InEachLane CanEnd self.old }
        ensures { self.new ≡ after_end self.old }
    {
        keep_row(
            &mut self.cells,
            self.units,
            self.unit,
            self.feed.cycles(),
            self.printed,
            &self.bank,
        );
        self.unit = turn_over(&mut self.feed, self.units, self.unit);
        self.bank.end_turn();
    }

    /// The cell of a printed column in a lane, counted from 0, for a cycle that is over, counted from 1:
    /// what the printed source had in that lane at the last turn of the cycle.
    pub fn cell(&self, lane: u32, cycle: u32, column: usize) -> V4
        requires lane { lane < LANES }
        requires first { 1 ≤ cycle }
        requires done { cycle ≤ cycles_done self.now }
        requires column { column < length (printed_sources self.now.image) }
        ensures { result ≡ shown self.now.image
            (lane_stimulus self.now.image.columns self.now.stimulus lane) cycle column }
    {
        let start = row_start(cycle - 1, self.printed.len(), self.cells.len());
        cell(self.cells.as_slice(), start, column, lane)
    }
}

impl<'a> Port<Planes> for PackHost<'a> {
    ghost seen = { λ host. host };

    ghost rows = { λ host. Some (longest host.stimulus, 0) };

    fn begin_turn(&mut self) {
        self.begin_turn();
    }

    #[inline]
    fn execute(&mut self, slot: u32) -> Planes {
        self.execute(slot)
    }

    #[inline]
    fn receive(&mut self, slot: u32, v: Planes) {
        self.receive(slot, v);
    }

    fn end_turn(&mut self) {
        self.end_turn();
    }
}
