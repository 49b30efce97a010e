//! The core.

ghost use Rattle.std.specs.Prelude.{IfOk, IsTrue, List, false, if◌then◌else◌, length, replicate, ℕ, ◌+◌, ◌<◌, ◌↔◌, ◌≡◌, ◌≤◌};
ghost use Rattle.logic_four.specs.Values.{value_at};
ghost use Rattle.net_defs.specs.Valid.{IsValidStimulus};
ghost use Rattle.image_defs.specs.{Frames.shown, Places.Each, WellFormed.IsWellFormed};
ghost use Rattle.event_defs.specs.{Counts.moves, declared.place.CoreStep.TheVariants.Moved, Sources.AreFirsts};
ghost use Rattle.event_defs.specs.declared.place.Action.TheVariants as action;
ghost use Rattle.event_defs.specs.declared.place.Event.TheVariants as event;
ghost use Rattle.port_host.specs.Rows.{printed_sources};
ghost use Rattle.order_run.specs.Core.{Applies, AreDone, IsRoundOf, IsSoundCore, IsStart, SparesReaders, TakesThisTurn, left_of, rows_of};
ghost use Rattle.order_run.specs.code.Core.{IsReady, IsUpcoming};

use crate::core_ports::{self, CorePort};
use crate::rows;
use crate::words::{is_of, lags};
use event_defs::{Action, CoreStep, Event};
use image_defs::Image;
use logic_four::{V4, decoded};
use net_defs::Stimulus;
use seen_list::{List, Memory};
use std::alloc::Global;
use std::marker::Model;

/// A machine in its run: what each port is and knows, how many turns each has told to be finished,
/// and the words of all sends in one row, `banks` for each. A contract sees whose image and
/// stimulus it runs, the banks, the places of the ports and the words.
#[derive(Drop)]
pub struct Core<'a> {
    image: &'a Image,
    stim: &'a Stimulus,
    banks: u32,
    until: u64,
    core_ports: List<CorePort<'a>>,
    finished: List<u64>,
    words: List<u64>,
}

impl<'a> Model for Core<'a> {
    ghost use Rattle.order_run.specs.Core.{CoreView};

    ghost Value = { CoreView };

    ghost use Rattle.order_run.specs.Kept.{view_of, IsKept};

    ghost view = { view_of };

    ghost invariant = { IsKept };
}

/// 1 for a step that moved, else 0.
fn moves(step: CoreStep) -> u32
    ensures { result ≡ moves step }
{
    match step {
        CoreStep::Moved(_) => 1,
        CoreStep::NotYet => 0,
        CoreStep::Done => 0,
    }
}

/// Whether all ports have finished so many turns.
fn have_finished(finished: &[u64], turns: u64) -> bool
    ensures { IsTrue result ↔ Each (λ n. turns ≤ n) finished.now }
{
    'ports: for p in 0..finished.len() {
        if finished[p] < turns {
            return false;
        }
    }
    true
}

impl<'a> Core<'a> {
    /// The machine before its first event. It takes all its memory here.
    pub fn new(
        alloc: Global,
        image: &'a Image,
        stim: &'a Stimulus,
        banks: u32,
    ) -> Result<Core<'a>, Memory>
        requires image { IsWellFormed image.now }
        requires stimulus { IsValidStimulus stim.now }
        requires columns { stim.now.columns ≡ image.now.columns }
        requires some { 1 ≤ banks }
        ensures start { IfOk result (IsStart image.now stim.now banks) }
        ensures sound { IfOk result IsSoundCore }
    {
        let firsts = event_defs::first_sends(alloc, image)?;
        Core::begin(alloc, image, stim, banks, firsts.as_slice())
    }

    /// The machine before its first event, by the numbers of the ports' first sends among all sends.
    fn begin(
        alloc: Global,
        image: &'a Image,
        stim: &'a Stimulus,
        banks: u32,
        firsts: &[u32],
    ) -> Result<Core<'a>, Memory>
        requires image { IsWellFormed image.now }
        requires stimulus { IsValidStimulus stim.now }
        requires columns { stim.now.columns ≡ image.now.columns }
        requires some { 1 ≤ banks }
        requires firsts { AreFirsts image.now (length image.now.ports + 1) firsts.now }
        ensures start { IfOk result (IsStart image.now stim.now banks) }
        ensures sound { IfOk result IsSoundCore }
    {
        let ports = image.ports.len();
        let words = firsts[ports] as usize * banks as usize;
        let cycles = stim.cycles();
        let finished = List::filled(alloc, 0, ports)?;
        let words = List::filled(alloc, 0, words)?;
        let core_ports = core_ports::make(alloc, image, stim, firsts, banks, cycles.max(1))?;
        Ok(Core {
            image,
            stim,
            banks,
            until: image.units as u64 * cycles as u64,
            core_ports,
            finished,
            words,
        })
    }

    /// One event of a port of the image.
    pub fn apply(&mut self, port: u32) -> CoreStep
        requires { port < length self.old.image.ports }
        ensures step { Applies self.old port result self.new }
        ensures takes { TakesThisTurn self.old port result }
        ensures puts { SparesReaders self.old port result }
        ensures sound { IsSoundCore self.new }
    {
        match self.next(port) {
            Action::Done => CoreStep::Done,
            Action::Ask { reader } => self.ask(port, reader),
            Action::Put { slot, value } => {
                self.put(port, slot, value);
                CoreStep::Moved(Event::Put { slot })
            }
            Action::Take { slot } => self.take(port, slot),
            Action::Tell => {
                self.tell(port);
                CoreStep::Moved(Event::Tell)
            }
        }
    }

    /// One event of each port, in ascending order. Answers how many of the ports moved.
    pub fn run_round(&mut self) -> u32
        ensures round { IsRoundOf self.old result self.new }
        ensures done { (result ≡ 0) ↔ AreDone self.old }
        ensures left { result + left_of self.new ≤ left_of self.old }
        ensures sound { IsSoundCore self.new }
    {
        let mut moved = 0;
        'ports: for port in 0..self.image.ports.len() as u32 {
            moved += moves(self.apply(port));
        }
        moved
    }

    /// The next event of a port.
    fn next(&self, port: u32) -> Action
        requires { port < length self.now.image.ports }
        ensures next { IsUpcoming self.now port result }
        ensures ready { IsReady self.now }
    {
        core_ports::next(self.core_ports.as_slice(), port as usize, self.banks)
    }

    /// A port looks how many turns a reader has finished.
    fn ask(&mut self, port: u32, reader: u32) -> CoreStep
        requires inside { port < length self.old.image.ports }
        requires next { IsUpcoming self.old port (action.Ask reader) }
        ensures { Applies self.old port result self.new }
    {
        let p = port as usize;
        let turn = core_ports::turn(self.core_ports.as_slice(), p);
        let finished = self.finished.as_slice()[reader as usize];
        if lags(finished, turn, self.banks) {
            return CoreStep::NotYet;
        }
        core_ports::ask(self.core_ports.as_mut_slice(), p, reader, finished);
        CoreStep::Moved(Event::Ask { reader })
    }

    /// A port writes the value of its item in a slot.
    fn put(&mut self, port: u32, slot: u32, value: V4)
        requires inside { port < length self.old.image.ports }
        requires next { IsUpcoming self.old port (action.Put slot value) }
        ensures { Applies self.old port (Moved (event.Put slot)) self.new }
    {
        let p = port as usize;
        core_ports::write(
            self.core_ports.as_slice(),
            p,
            self.banks,
            &mut self.words,
            value,
        );
        core_ports::put(self.core_ports.as_mut_slice(), p);
    }

    /// A port reads the value that is sent to it in a slot, if it is there.
    fn take(&mut self, port: u32, slot: u32) -> CoreStep
        requires inside { port < length self.old.image.ports }
        requires next { IsUpcoming self.old port (action.Take slot) }
        ensures { Applies self.old port result self.new }
    {
        let p = port as usize;
        let word = core_ports::read(self.core_ports.as_slice(), p, self.banks, &self.words);
        if !is_of(word, core_ports::turn(self.core_ports.as_slice(), p)) {
            return CoreStep::NotYet;
        }
        core_ports::take(self.core_ports.as_mut_slice(), p, decoded(word));
        CoreStep::Moved(Event::Take { slot })
    }

    /// A port tells that it has finished its turn.
    fn tell(&mut self, port: u32)
        requires inside { port < length self.old.image.ports }
        requires next { IsUpcoming self.old port action.Tell }
        ensures { Applies self.old port (Moved event.Tell) self.new }
    {
        let p = port as usize;
        let turn = core_ports::turn(self.core_ports.as_slice(), p);
        core_ports::tell(self.core_ports.as_mut_slice(), p, self.banks);
        self.finished.set(p, turn);
    }

    /// The number of rows that are done: of the cycles whose last turn the host has finished.
    pub fn rows_done(&self) -> u32
        ensures { result ≡ rows_of self.now }
    {
        rows::rows_done(self.core_ports.as_slice(), self.image.ports.len() - 1)
    }

    /// The row of a cycle, counted from 1, that is done.
    pub fn cells(&self, cycle: u32) -> &[V4]
        requires some { 1 ≤ cycle }
        requires done { cycle ≤ rows_of self.now }
        ensures long { length result.now ≡ length (printed_sources self.now.image) }
        ensures cells { (j : ℕ) → j < length result.now
            → value_at result.now j ≡ shown self.now.image self.now.stimulus cycle j }
    {
        rows::cells(
            self.core_ports.as_slice(),
            self.image.ports.len() - 1,
            cycle,
        )
    }

    /// Whether every port has finished its last turn.
    pub fn all_done(&self) -> bool
        ensures { IsTrue result ↔ AreDone self.now }
    {
        have_finished(self.finished.as_slice(), self.until)
    }

    /// Ends the run, wherever it is. What the ports hold is let go here.
    pub fn end(self) {}
}
