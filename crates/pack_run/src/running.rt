//! A packed port that runs over a packed crossbar.

ghost use Rattle.std.specs.Prelude.{MatchOption, length, ◌*◌, ◌<◌, ◌≡◌, ◌≢◌, ◌≤◌};
ghost use Rattle.limits.specs.declared.TheConstants.{LANES};
ghost use Rattle.image_defs.specs.{Frames.shown, Places.host_of};
ghost use Rattle.port_host.specs.Rows.{printed_sources};
ghost use Rattle.port_walk.specs.declared.upcoming.Upcoming.TheVariants as action;
ghost use Rattle.slot_words.specs.packed.{Passes.IsFit, Passes.IsOf, Words.stimulus_of};
ghost use Rattle.pack_run.specs.{Pairs.AreBegun, Pairs.last_turn, Steps.IsStepOf, code.Steps.IsAnswer, code.Steps.IsUpcoming};

use crew_run::Step;
use logic_four::V4;
use pack_walk::{PackAction, PackPlaced};
use slot_words::pack_words::{PackBar, PackPass, PackTaken};
use std::marker::Model;

/// A packed port with its pass, both at the same place. A contract sees the pass, and so whose image and
/// lanes it runs, its place, how many steps it has made, and the word and the number of the last.
#[derive(Drop)]
pub struct PackRunning<'a> {
    pass: PackPass,
    port: PackPlaced<'a>,
}

impl<'a> Model for PackRunning<'a> {
    ghost use Rattle.slot_words.specs.packed.Passes.{PackPassView};

    ghost Value = { PackPassView };

    ghost use Rattle.pack_run.specs.Kept.{IsKept, view_of};

    ghost view = { view_of };

    ghost invariant = { IsKept };
}

/// What comes of an Ask in this turn, by how many turns the reader has finished.
fn asked(finished: u64, turn: u64) -> Step
    ensures { IsAnswer finished turn result }
{
    if finished < turn.saturating_sub(1) {
        Step::NotYet
    } else {
        Step::Moved
    }
}

impl<'a> PackRunning<'a> {
    /// A pass and the port that it is for, before their first event.
    pub fn new(pass: PackPass, port: PackPlaced<'a>) -> PackRunning<'a>
        requires { AreBegun pass port }
        ensures { result ≡ pass }
    {
        PackRunning { pass, port }
    }

    /// The number of the port.
    pub fn port(&self) -> u32
        ensures { result ≡ self.now.port }
    {
        self.pass.port()
    }

    /// The turn that it is in, or the last one plus one when it has made all turns.
    pub fn turn(&self) -> u64
        ensures { result ≡ self.now.place.turn }
    {
        self.pass.turn()
    }

    /// The last turn that it makes.
    pub fn last_turn(&self) -> u64
        ensures { result ≡ last_turn self.now }
    {
        self.port.last_turn()
    }

    /// Takes the next event: an Ask, a Put, a Take or a Tell. After `NotYet` it made an Ask or a Take that
    /// has to be made again; after `Done` it made none, and all turns are made.
    pub fn step(&mut self, bar: &PackBar) -> Step
        requires { IsOf bar.now self.old }
        ensures step { IsStepOf self.old result self.new }
        ensures own { IsOf bar.now self.new }
        ensures fit { IsFit self.old }
    {
        match self.port.next(self.pass.known()) {
            PackAction::Done => Step::Done,
            PackAction::Ask { reader } => self.ask(bar, reader),
            PackAction::Put { slot } => self.put(bar, slot),
            PackAction::Take { slot } => self.take(bar, slot),
            PackAction::Tell => self.tell(bar),
        }
    }

    /// Looks how many turns a reader has finished.
    fn ask(&mut self, bar: &PackBar, reader: u32) -> Step
        requires own { IsOf bar.now self.old }
        requires next { IsUpcoming self.old (action.Ask reader) }
        ensures { IsStepOf self.old result self.new }
    {
        let finished = bar.ask(&mut self.pass, reader);
        asked(finished, self.pass.turn())
    }

    /// Puts the values of all lanes in a slot.
    fn put(&mut self, bar: &PackBar, slot: u32) -> Step
        requires own { IsOf bar.now self.old }
        requires next { IsUpcoming self.old (action.Put slot) }
        ensures { IsStepOf self.old result self.new }
    {
        let values = self.port.value();
        bar.put(&mut self.pass, slot, values);
        self.port.put_done();
        Step::Moved
    }

    /// Looks at what comes in a slot, and receives it if it is there.
    fn take(&mut self, bar: &PackBar, slot: u32) -> Step
        requires own { IsOf bar.now self.old }
        requires next { IsUpcoming self.old (action.Take slot) }
        ensures { IsStepOf self.old result self.new }
    {
        match bar.take(&mut self.pass, slot) {
            PackTaken::Value(values) => {
                self.port.took(values);
                Step::Moved
            }
            PackTaken::NotYet => Step::NotYet,
        }
    }

    /// Ends the turn.
    fn tell(&mut self, bar: &PackBar) -> Step
        requires own { IsOf bar.now self.old }
        requires next { IsUpcoming self.old action.Tell }
        ensures { IsStepOf self.old result self.new }
    {
        bar.tell(&mut self.pass);
        self.port.told();
        Step::Moved
    }

    /// The cell of a printed column in a lane, both counted from 0, for a cycle whose last turn is made, counted
    /// from 1.
    pub fn cell(&self, lane: u32, cycle: u32, column: u32) -> V4
        requires host { self.now.port ≡ host_of self.now.image }
        requires lane { lane < LANES }
        requires first { 1 ≤ cycle }
        requires done { self.now.image.units * cycle < self.now.place.turn }
        requires column { column < length (printed_sources self.now.image) }
        ensures { result ≡ shown self.now.image (stimulus_of self.now.image self.now.feed lane) cycle column }
    {
        self.cell_at(lane, cycle, column as usize)
    }

    /// The same, for any number of columns.
    pub fn cell_at(&self, lane: u32, cycle: u32, column: usize) -> V4
        requires host { self.now.port ≡ host_of self.now.image }
        requires lane { lane < LANES }
        requires first { 1 ≤ cycle }
        requires done { self.now.image.units * cycle < self.now.place.turn }
        requires column { column < length (printed_sources self.now.image) }
        ensures { result ≡ shown self.now.image (stimulus_of self.now.image self.now.feed lane) cycle column }
    {
        // A cycle has a turn, since a pass is of a well-formed image.
        let _known = self.pass.known();
        match self.port.host() {
            Some(host) => host.cell(lane, cycle, column),
            None => unreachable!(),
        }
    }
}
