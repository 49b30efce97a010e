//! The memory of a port in its run.

ghost use Rattle.std.specs.Prelude.{◌≡◌, ◌*◌, ◌<◌, IfOk};
ghost use Rattle.net_defs.specs.Time.{is_edge};
ghost use Rattle.image_defs.specs.Ports.{lane_port, at_first, after_begin, after_execute, after_receive, after_end, value_in, CanBegin, CanExecute, CanReceive, CanEnd};
ghost use Rattle.image_defs.specs.WellFormed.{IsWellFormed};
ghost use Rattle.port_bank.specs.{Flat.place_count, Flat.IsWithin, Lanes.InEach, Reads.IsRead, Reads.IsHeld, Reads.IsTaken};
ghost use Rattle.port_bank.specs.Words.{InEachLane, InEachLaneOf, AreValues};

use crate::places::Places;
use crate::steps::{Operand, got_place, operand_of};
use crate::word::Word;
use image_defs::{Image, Source};
use net_defs::{initial_value, is_edge};
use seen_list::Memory;
use std::alloc::Global;
use std::marker::Model;

/// The words of a port in its run, of its turn and of the turn before. A contract sees whose image and
/// stimulus it runs and how far it has come, and nothing of the words.
///
/// A plain port's bank is `Bank<V4>`: it has one lane, whose port is the port itself, so that a contract with
/// `InEachLane W.Word Q view` says `Q view` of it, and one with `AreValues W.Word v value view` says `v ≡ value view`.
/// Of a packed port's bank, `Bank<Planes>`, it says the same of each of the thirty lanes.
#[derive(Drop)]
pub struct Bank<'a, W: Word> {
    image: &'a Image,
    stim: &'a W::Feed,
    port: u32,
    turn: u32,
    begun: bool,
    at_edge: bool,
    executed: usize,
    received: usize,
    places: Places<W>,
}

impl<'a, W: Word> Model for Bank<'a, W> {
    ghost use Rattle.image_defs.specs.Ports.{View};

    ghost Value = { View W.Feed };

    ghost use Rattle.port_bank.specs.Banks.{IsKept};

    ghost view = { λ a. record { image = a.image.now; stimulus = a.stim.now; port = a.port; turn = a.turn; begun = a.begun; executed = a.executed; received = a.received } };

    ghost invariant = { λ a. IsKept W.lanes W.lane W.stimulus (record { image = a.image.now; stimulus = a.stim.now; port = a.port; turn = a.turn; begun = a.begun; executed = a.executed; received = a.received }) a.at_edge a.places };
}

impl<'a, W: Word> Bank<'a, W> {
    /// The banks of a port before its first turn. It takes memory for four words a slot.
    pub fn new(
        alloc: Global,
        image: &'a Image,
        stim: &'a W::Feed,
        port: u32,
    ) -> Result<Bank<'a, W>, Memory>
        requires image { IsWellFormed image.now }
        requires stimulus { W.feeds image.now.columns stim.now }
        ensures { IfOk result (λ bank. bank ≡ at_first image.now stim.now port) }
    {
        let places = Places::new(alloc, image.slots)?;
        Ok(Bank {
            image,
            stim,
            port,
            turn: 1,
            begun: false,
            at_edge: false,
            executed: 0,
            received: 0,
            places,
        })
    }

    /// The number of the port's items that are executed in this turn.
    #[inline]
    pub fn executed(&self) -> usize
        ensures { result ≡ self.now.executed }
    {
        self.executed
    }

    /// Whether registers and memories take new values in this turn.
    #[inline]
    pub fn is_edge(&self) -> bool
        ensures { result ≡ is_edge self.now.image.units self.now.turn }
    {
        self.at_edge
    }

    /// The value of the source whose operand this is.
    #[inline]
    pub fn read(&self, operand: Operand) -> W
        requires { operand.number < 2 * place_count self.now.image.slots }
        ensures { InEachLaneOf W.Word result (λ view v. IsRead view operand v) self.now }
    {
        self.places.value(operand.number)
    }

    /// The value of a source.
    pub fn take(&self, source: Source) -> W
        requires { IsWithin self.now.image.slots source }
        ensures { InEachLaneOf W.Word result (λ view v. IsTaken view source v) self.now }
    {
        self.read(operand_of(self.image.slots, source))
    }

    /// What a register in a slot has in this turn, where `new` is what it takes at an edge.
    #[inline]
    pub fn held(&self, slot: u32, new: W) -> W
        requires { slot < self.now.image.slots }
        ensures { InEach W.lanes (λ l. IsHeld (lane_port W.stimulus l self.now) slot (W.lane new l) (W.lane result l)) }
    {
        if self.turn == 1 {
            W::of(initial_value(self.image.init))
        } else if self.at_edge {
            new
        } else {
            self.places.past(slot)
        }
    }

    /// Begins a turn.
    pub fn begin_turn(&mut self)
        requires { InEachLane W.Word (λ view. CanBegin view) self.old }
        ensures { self.new ≡ after_begin self.old }
    {
        self.begun = true;
    }

    /// Keeps the value of the item in a slot, which is now executed.
    #[inline]
    pub fn execute(&mut self, slot: u32, v: W)
        requires can { InEachLane W.Word (λ view. CanExecute view slot) self.old }
        requires value { AreValues W.Word v (λ view. value_in view slot) self.old }
        ensures { self.new ≡ after_execute self.old }
    {
        self.places.set(slot, v);
        self.executed += 1;
    }

    /// Keeps the value that is received in a slot.
    #[inline]
    pub fn receive(&mut self, slot: u32, v: W)
        requires { InEachLaneOf W.Word v (λ view x. CanReceive view slot x) self.old }
        ensures { self.new ≡ after_receive self.old }
    {
        let place = got_place(self.image.slots, slot);
        self.places.set(place, v);
        self.received += 1;
    }

    /// Ends the turn: its values are now those of the turn before.
    pub fn end_turn(&mut self)
        requires { InEachLane W.Word (λ view. CanEnd view) self.old }
        ensures { self.new ≡ after_end self.old }
    {
        self.places.swap();
        self.executed = 0;
        self.received = 0;
        self.begun = false;
        self.turn += 1;
        self.at_edge = is_edge(self.image.units, self.turn);
    }
}
