//! The host in its run.

ghost use Rattle.std.specs.Prelude.{ℕ, ◌≡◌, ◌<◌, ◌≤◌, length, IfOk, Some};
ghost use Rattle.net_defs.specs.{Time.value_at, Valid.IsValidStimulus};
ghost use Rattle.image_defs.specs.Ports.{after_begin, after_execute, after_receive, after_end, value_in, CanBegin, CanExecute, CanReceive, CanEnd};
ghost use Rattle.image_defs.specs.{WellFormed.IsWellFormed, Frames.shown};
ghost use Rattle.port_host.specs.Rows.{HasRoom, given_up, host_at_first, moved_to, printed_sources, rows_done};

use crate::cells::{keep_row, room, row, row_start};
use crate::cursor::{Progress, begin, input_value, turn_over};
use image_defs::{Image, InColumn, Source, Work};
use logic_four::V4;
use net_defs::Stimulus;
use port_bank::{Bank, Port};
use seen_list::{List, Memory};
use std::alloc::Global;
use std::marker::Model;

/// The host in its run. It keeps the rows of at most `window` cycles: those that are over and not given
/// up. A contract sees whose image and stimulus it runs, how far it has come, its window and how many rows
/// it has given up.
#[derive(Drop)]
pub struct HostPort<'a> {
    bank: Bank<'a, V4>,
    stim: &'a Stimulus,
    units: u32,
    inputs: &'a [InColumn],
    printed: &'a [Source],
    progress: Progress,
    window: u32,
    first_row: u32,
    cells: List<V4>,
}

impl<'a> Model for HostPort<'a> {
    ghost use Rattle.port_host.specs.Rows.{HostView};

    ghost Value = { HostView };

    ghost use Rattle.port_host.specs.Kept.{IsReady, view_of};

    ghost view = { view_of };

    ghost invariant = { IsReady };
}

impl<'a> HostPort<'a> {
    /// The host before its first turn, with room for the rows of so many cycles. It takes memory for four
    /// values a slot, and for the printed values of these rows: `Memory` also where they are more than can
    /// be counted. No later call takes any.
    pub fn new(
        alloc: Global,
        image: &'a Image,
        stim: &'a Stimulus,
        window: u32,
    ) -> Result<HostPort<'a>, Memory>
        requires image { IsWellFormed image.now }
        requires stimulus { IsValidStimulus stim.now }
        requires columns { stim.now.columns ≡ image.now.columns }
        requires some { 1 ≤ window }
        ensures { IfOk result (λ made. made ≡ host_at_first image.now stim.now window) }
    {
        let port = image.ports.len() - 1;
        let port_image = &image.ports.as_slice()[port];
        match &port_image.work {
            Work::Logic { .. } => unreachable!(),
            Work::Array { .. } => unreachable!(),
            Work::Host { inputs, printed } => {
                let cells = room(alloc, window, printed.len())?;
                let bank = Bank::new(alloc, image, stim, port as u32)?;
                Ok(HostPort {
                    bank,
                    stim,
                    units: image.units,
                    inputs: inputs.as_slice(),
                    printed: printed.as_slice(),
                    progress: begin(stim),
                    window,
                    first_row: 0,
                    cells,
                })
            }
        }
    }

    /// Begins a turn.
    pub fn begin_turn(&mut self)
        requires { CanBegin self.old.port }
        ensures { self.new ≡ moved_to self.old (after_begin self.old.port) }
    {
        self.bank.begin_turn();
    }

    /// Executes the item in a slot, and answers its value: that of its input in this cycle.
    pub fn execute(&mut self, slot: u32) -> V4
        requires { CanExecute self.old.port slot }
        ensures value { result ≡ value_in self.old.port slot }
        ensures view { self.new ≡ moved_to self.old (after_execute self.old.port) }
    {
        let input = self.inputs[self.bank.executed()];
        let value = input_value(self.stim, self.progress.cursor, input.column);
        self.bank.execute(slot, value);
        value
    }

    /// Receives the value that is sent in a slot.
    pub fn receive(&mut self, slot: u32, v: V4)
        requires { CanReceive self.old.port slot v }
        ensures { self.new ≡ moved_to self.old (after_receive self.old.port) }
    {
        self.bank.receive(slot, v);
    }

    /// Ends the turn. After the last turn of a cycle the host keeps the row that is printed, for which it
    /// has to have room.
    pub fn end_turn(&mut self)
        requires end { CanEnd self.old.port }
        requires room { HasRoom self.old }
        ensures { self.new ≡ moved_to self.old (after_end self.old.port) }
    {
        let rows = self.progress.rows - self.first_row;
        keep_row(
            &mut self.cells,
            self.units,
            self.progress.unit,
            rows,
            self.printed,
            &self.bank,
        );
        self.progress = turn_over(self.stim, self.units, self.progress);
        self.bank.end_turn();
    }

    /// Gives up all rows that are done, so that there is room for others.
    pub fn give_up(&mut self)
        ensures { self.new ≡ given_up self.old }
    {
        self.first_row = self.progress.rows;
    }

    /// The number of cycles that are over, each of which has its row.
    pub fn rows_done(&self) -> u32
        ensures { result ≡ rows_done self.now.port }
    {
        self.progress.rows
    }

    /// The number of rows that are given up: those of the first cycles.
    pub fn first_row(&self) -> u32
        ensures { result ≡ self.now.first_row }
    {
        self.first_row
    }

    /// The row of a cycle, counted from 1, that is done and not given up: what each printed source had at
    /// its last turn.
    pub fn cells(&self, cycle: u32) -> &[V4]
        requires kept { self.now.first_row < cycle }
        requires done { cycle ≤ rows_done self.now.port }
        ensures long { length result.now ≡ length (printed_sources self.now.port.image) }
        ensures cells { (j : ℕ) → j < length result.now
            → value_at result.now j ≡ shown self.now.port.image self.now.port.stimulus cycle j }
    {
        let width = self.printed.len();
        let start = row_start(cycle - 1 - self.first_row, width, self.cells.len());
        row(self.cells.as_slice(), start, width)
    }
}

impl<'a> Port<V4> for HostPort<'a> {
    ghost seen = { λ host. host.port };

    ghost rows = { λ host. Some (host.window, host.first_row) };

    fn begin_turn(&mut self) {
        self.begin_turn();
    }

    #[inline]
    fn execute(&mut self, slot: u32) -> V4 {
        self.execute(slot)
    }

    #[inline]
    fn receive(&mut self, slot: u32, v: V4) {
        self.receive(slot, v);
    }

    fn end_turn(&mut self) {
        self.end_turn();
    }
}
