//! A port that runs over a crossbar.

ghost use Rattle.std.specs.Prelude.{MatchOption, ◌+◌, ◌<◌, ◌≡◌, ◌≢◌, ◌≤◌, ◌↔◌, IsTrue};
ghost use Rattle.image_defs.specs.Places.{host_of};
ghost use Rattle.event_defs.specs.declared.place.Action.TheVariants as action;
ghost use Rattle.slot_words.specs.plain.{Passes.IsFit, Passes.IsOf, Words.turns_of};
ghost use Rattle.port_walk.specs.Placed.{CanGoOn};
ghost use Rattle.port_run.specs.Pairs.{AreBegun, IsHostOf, first_block, next_block, placed, with_pass};
ghost use Rattle.port_run.specs.{Steps.IsStepOf, code.Steps.IsAnswer, code.Steps.IsUpcoming};

use crew_run::Step;
use event_defs::Action;
use logic_four::V4;
use port_host::HostPort;
use port_walk::AnyPort;
use slot_words::{Crossbar, Pass, Taken};
use std::marker::Model;

/// A port with its pass, both at the same place. It runs the cycles in blocks of at most so many, its
/// window, one after the other, and rests at the end of each. A contract sees the pass, and so whose
/// image and stimulus it runs, its place, how many steps it has made, and the word and the number of
/// the last; and its window, how many cycles come before its block, and the last turn of the block.
#[derive(Drop)]
pub struct Running<'a> {
    pass: Pass,
    port: AnyPort<'a>,
}

impl<'a> Model for Running<'a> {
    ghost use Rattle.port_run.specs.Pairs.{RunView};

    ghost Value = { RunView };

    ghost use Rattle.port_run.specs.Kept.{IsKept, view_of};

    ghost view = { view_of };

    ghost invariant = { IsKept };
}

/// What comes of an Ask in this turn, by how many turns the reader has finished.
fn asked(finished: u64, turn: u64, banks: u32) -> Step
    ensures { IsAnswer finished turn banks result }
{
    if finished < turn.saturating_sub(banks as u64) {
        Step::NotYet
    } else {
        Step::Moved
    }
}

impl<'a> Running<'a> {
    /// A pass and the port that it is for, before their first event. The window is the port's.
    pub fn new(pass: Pass, port: AnyPort<'a>) -> Running<'a>
        requires { AreBegun pass port }
        ensures { result ≡ first_block pass port.entry.window }
    {
        Running { pass, port }
    }

    /// The number of the port.
    pub fn port(&self) -> u32
        ensures { result ≡ self.now.pass.port }
    {
        self.pass.port()
    }

    /// The turn that it is in, or the last one of its block plus one when it has made all turns of it.
    pub fn turn(&self) -> u64
        ensures { result ≡ self.now.pass.place.turn }
    {
        self.pass.turn()
    }

    /// The last turn that it makes in its block.
    pub fn until(&self) -> u64
        ensures { result ≡ self.now.until }
    {
        self.port.until()
    }

    /// Takes the next event of its block: an Ask, a Put, a Take or a Tell. After `NotYet` it made an Ask
    /// or a Take that has to be made again; after `Done` it made none, and all turns of the block are made.
    pub fn step(&mut self, bar: &Crossbar) -> Step
        requires { IsOf bar.now self.old.pass }
        ensures step { IsStepOf self.old.until self.old.pass result self.new.pass }
        ensures block { self.new ≡ with_pass self.old self.new.pass }
        ensures own { IsOf bar.now self.new.pass }
        ensures fit { IsFit self.old.pass }
        ensures few { self.old.until ≤ turns_of self.old.pass.image self.old.pass.feed }
    {
        match self.port.next(self.pass.known(), self.pass.banks()) {
            Action::Done => Step::Done,
            Action::Ask { reader } => self.ask(bar, reader),
            Action::Put { slot, value } => self.put(bar, slot, value),
            Action::Take { slot } => self.take(bar, slot),
            Action::Tell => self.tell(bar),
        }
    }

    /// Looks how many turns a reader has finished.
    fn ask(&mut self, bar: &Crossbar, reader: u32) -> Step
        requires own { IsOf bar.now self.old.pass }
        requires next { IsUpcoming self.old.until self.old.pass (action.Ask reader) }
        ensures step { IsStepOf self.old.until self.old.pass result self.new.pass }
        ensures block { self.new ≡ with_pass self.old self.new.pass }
    {
        let finished = bar.ask(&mut self.pass, reader);
        asked(finished, self.pass.turn(), self.pass.banks())
    }

    /// Puts a value in a slot.
    fn put(&mut self, bar: &Crossbar, slot: u32, value: V4) -> Step
        requires own { IsOf bar.now self.old.pass }
        requires next { IsUpcoming self.old.until self.old.pass (action.Put slot value) }
        ensures step { IsStepOf self.old.until self.old.pass result self.new.pass }
        ensures block { self.new ≡ with_pass self.old self.new.pass }
    {
        bar.put(&mut self.pass, slot, value);
        self.port.put_done();
        Step::Moved
    }

    /// Looks at what comes in a slot, and receives it if it is there.
    fn take(&mut self, bar: &Crossbar, slot: u32) -> Step
        requires own { IsOf bar.now self.old.pass }
        requires next { IsUpcoming self.old.until self.old.pass (action.Take slot) }
        ensures step { IsStepOf self.old.until self.old.pass result self.new.pass }
        ensures block { self.new ≡ with_pass self.old self.new.pass }
    {
        match bar.take(&mut self.pass, slot) {
            Taken::Value(value) => {
                self.port.took(value);
                Step::Moved
            }
            Taken::NotYet => Step::NotYet,
        }
    }

    /// Ends the turn.
    fn tell(&mut self, bar: &Crossbar) -> Step
        requires own { IsOf bar.now self.old.pass }
        requires next { IsUpcoming self.old.until self.old.pass action.Tell }
        ensures step { IsStepOf self.old.until self.old.pass result self.new.pass }
        ensures block { self.new ≡ with_pass self.old self.new.pass }
    {
        bar.tell(&mut self.pass);
        self.port.told();
        Step::Moved
    }

    /// Goes on to the next block: it stays where it is, in the first turn of that block. The host gives
    /// up the rows of the block that is over. It takes no memory.
    pub fn go_on(&mut self)
        requires { CanGoOn (placed self.old) }
        ensures { self.new ≡ next_block self.old }
    {
        self.port.go_on();
    }

    /// The port as the host, or `None` where it is another. The host of a port that has made all turns of
    /// its block has the rows of all its cycles.
    pub fn host(&self) -> Option<&HostPort<'a>>
        ensures { MatchOption result
            (self.now.pass.port ≢ host_of self.now.pass.image)
            (λ host. IsHostOf self.now host.now) }
    {
        // A cycle has a turn, since a pass is of a well-formed image.
        let _known = self.pass.known();
        self.port.host()
    }

    /// The port by itself.
    pub fn into_port(self) -> AnyPort<'a>
        ensures { result ≡ placed self.entry }
    {
        self.port
    }
}
