//! A crew that runs a machine block after block.

ghost use Rattle.std.specs.Prelude.{IfOk, length, min, ◌+◌, ◌<◌, ◌≡◌, ◌≤◌};
ghost use Rattle.image_defs.specs.WellFormed.{IsWellFormed};
ghost use Rattle.machine_run.specs.Crews.{IsHostOfCrew, at_block_end, at_first, in_next_block, rows_at_end, turns_left, turns_made};
ghost use Rattle.machine_run.specs.Visits.{AllCanTellTurns, AreInPlace, AreVisitsBetween};
ghost use Rattle.net_defs.specs.{Time.cycle_count, Valid.IsValidStimulus};
ghost use Rattle.slot_words.specs.plain.Passes.{AreFirstPasses};

use crate::deal::{worker_of, workers_of};
use crate::seats::CrewSeats;
use crate::steps::go_on_all;
use crew_run::{Gate, Worker, run_with};
use image_defs::Image;
use net_defs::Stimulus;
use port_host::HostPort;
use port_run::Seated;
use seen_list::{List, Memory};
use slot_words::{Crossbar, Pass};
use std::alloc::Global;
use std::marker::{Model, Send, Sync};
use std::sync::Wait;
use std::thread::Threads;

/// The ports of an image, dealt to workers that step them over one crossbar, block after block of so many
/// cycles: all ports come to the end of a block before any of them begins the next one. Worker `w` steps the
/// ports `p` of which `p % workers` is `w`. A contract sees whose image and stimulus they run, the workers, the
/// cycles of a block, how many cycles come before the block, and of how many cycles the turns are made.
#[derive(Drop)]
pub struct Crew<'a, G> {
    image: &'a Image,
    stim: &'a Stimulus,
    workers: List<Worker<Seated<'a>, G>>,
    cycles: u32,
    window: u32,
    first_row: u32,
    rows: u32,
}

impl<'a, G> Model for Crew<'a, G> {
    ghost use Rattle.machine_run.specs.Crews.{CrewView};

    ghost Value = { CrewView };

    ghost use Rattle.machine_run.specs.Kept.{IsKept, view_of};

    ghost view = { view_of };

    ghost invariant = { IsKept };
}

/// The cycles that are over at the end of a block of at most so many, which comes after the first ones of all.
fn block_end(first_row: u32, window: u32, cycles: u32) -> u32
    ensures { result ≡ min (first_row + window) cycles }
{
    first_row.saturating_add(window).min(cycles)
}

impl<'a, G: Gate> Crew<'a, G> {
    /// The ports of the passes of a crossbar with so many workers, before their first turn, in blocks of so
    /// many cycles. It takes all the memory of the run: for each port what it needs, and for the printed cells
    /// of one block. No later call takes any.
    pub fn new(
        alloc: Global,
        bar: &'a Crossbar,
        image: &'a Image,
        stim: &'a Stimulus,
        passes: List<Pass>,
        workers: u32,
        window: u32,
    ) -> Result<Crew<'a, G>, Memory>
        requires fits { IsWellFormed image.now }
        requires valid { IsValidStimulus stim.now }
        requires columns { stim.now.columns ≡ image.now.columns }
        requires image { bar.now.image ≡ image.now }
        requires stimulus { bar.now.feed ≡ stim.now }
        requires passes { AreFirstPasses bar.now (length image.now.ports) passes }
        requires some { 1 ≤ workers }
        requires some_cycles { 1 ≤ window }
        ensures { IfOk result (λ crew. crew ≡ at_first image.now stim.now workers window) }
    {
        let seats = CrewSeats {
            bar,
            image,
            stim,
            workers,
            window,
        };
        let workers = workers_of(alloc, &seats, passes, workers)?;
        Ok(Crew {
            image,
            stim,
            workers,
            cycles: stim.cycles(),
            window,
            first_row: 0,
            rows: 0,
        })
    }

    /// Steps all ports to the end of the block. Before the first step of each turn of a port its worker tells
    /// the gate in its own place of the turn; the gates past the workers are not used. It may wait, so what it
    /// promises holds if it returns.
    ///
    /// Workers run in threads where these can be made and gain anything; no contract says so.
    pub fn run_block<R: Threads + Wait + Sync>(&mut self, rt: &R, gates: &mut [Option<G>])
    where
        G: Send,
        requires enough { self.old.workers ≤ length gates.old }
        requires tell { AllCanTellTurns G.Gate.own (turns_left self.old) self.old.workers gates.old }
        ensures run { self.new ≡ at_block_end self.old }
        ensures visits { AreVisitsBetween G.Gate.own (length self.old.image.ports) (turns_made self.old)
            (turns_made self.new) self.old.workers gates.old gates.new }
        ensures tell { AllCanTellTurns G.Gate.own (turns_left self.new) self.old.workers gates.new }
        ensures kept { AreInPlace gates.old gates.new }
    {
        run_with(rt, self.workers.as_mut_slice(), gates);
        self.rows = block_end(self.first_row, self.window, self.cycles);
    }

    /// The host, which has the rows of the cycles of the block that are over.
    pub fn host(&self) -> &HostPort<'a>
        ensures { IsHostOfCrew self.now result.now }
    {
        let host = self.image.ports.len() - 1;
        let worker = &self.workers.as_slice()[worker_of(host, self.workers.len())];
        match worker.members.as_slice()[0].run.host() {
            Some(host) => host,
            None => unreachable!(),
        }
    }

    /// Goes on from the end of a block to the next one: all ports begin their next turn, and the host gives up
    /// the rows of the block that is over.
    pub fn go_on(&mut self)
        requires done { self.old.rows ≡ rows_at_end self.old }
        requires more { self.old.rows < cycle_count self.old.stimulus }
        ensures { self.new ≡ in_next_block self.old }
    {
        go_on_all(self.workers.as_mut_slice());
        self.first_row = self.rows;
    }

    /// Ends the run, wherever it is. What the ports hold is let go here.
    pub fn end(self) {}
}
