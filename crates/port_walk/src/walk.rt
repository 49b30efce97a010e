//! A port of any kind that walks through its turns.

ghost use Rattle.std.specs.Prelude.{◌≡◌, ◌+◌, ◌<◌, ◌≤◌, ℕ, Bool, length};
ghost use Rattle.std.specs.List.Sorted.{IsStrictlyIncreasing};
ghost use Rattle.net_defs.specs.{Time.turn_count, Valid.IsValidStimulus};
ghost use Rattle.image_defs.specs.Places.{Each, IsPort, item_slots, in_slots, out_slots};
ghost use Rattle.image_defs.specs.{Ports.at_first, Ports.last_turn, Steps.timing_of, WellFormed.IsWellFormed};
ghost use Rattle.port_bank.specs.{Runs.CanRun, Runs.HasRun, Runs.IsLastValue, Words.InEachLane, Words.InEachLaneOf};
ghost use Rattle.port_walk.specs.Stands.{IsNextOf, IsNextSend, IsNextReceipt, IsEnding, CanPut, CanTake};
ghost use Rattle.port_walk.specs.Walks.{started, in_next_turn, HasPut, HasTaken, HasRowRoom, IsWithin, IsNextValue, CanTakeValue};
ghost use Rattle.port_walk.specs.{code.Readers.IsNextOfSend, Rows.AreReaders, Stops.AreStops};
ghost use Rattle.port_walk.specs.code.Enters.{rests_no_more, CanEnter, HasEntered};

use crate::kind::{Kind, give_up};
use crate::readers::{Readers, first_lagging, readers_at, turns_wanted};
use crate::stops::{Stop, StopKind};
use crate::upcoming::Upcoming;
use image_defs::PortImage;
use logic_four::V4;
use port_bank::{Port, Word};
use seen_list::List;
use std::marker::Model;

/// A port with its place in the turn, whatever its kind and however many lanes it has. After each call it has executed
/// all its items in the slots up to that of its next event; more it can't execute before that. After its last turn it
/// rests. A contract sees whose image and stimulus it runs, where it stands, and the rows of the host.
#[derive(Drop)]
pub struct Walk<'a, W: Word, P: Port<W>> {
    pub(crate) port: P,
    port_image: &'a PortImage,
    slots: List<u32>,
    readers: Readers,
    stops: List<Stop>,
    at: usize,
    sent: usize,
    took: usize,
    value: W,
    pub(crate) turn: u64,
    pub(crate) until: u64,
}

impl<'a, W: Word, P: Port<W>> Model for Walk<'a, W, P> {
    ghost use Rattle.port_walk.specs.{Walks.Walked, Kept.view_of, Kept.IsKept};

    ghost Value = { Walked W.Feed };

    ghost view = { λ a. view_of (record { view = P.seen a.port; rows = P.rows a.port; port_image = a.port_image.now; slots = a.slots; readers = a.readers; stops = a.stops; at = a.at; sent = a.sent; took = a.took; value = a.value; turn = a.turn; until = a.until }) };

    ghost invariant = { λ a. IsKept W.Word (record { view = P.seen a.port; rows = P.rows a.port; port_image = a.port_image.now; slots = a.slots; readers = a.readers; stops = a.stops; at = a.at; sent = a.sent; took = a.took; value = a.value; turn = a.turn; until = a.until }) };
}

/// What comes next where a Put is missing: an Ask of a reader that isn't known to have finished so many turns, or the
/// Put.
pub(crate) fn next_of_send(readers: &[u32], known: &[u64], turns: u64, slot: u32) -> Upcoming
    requires there { Each (λ r. r < length known.now) readers.now }
    requires rising { IsStrictlyIncreasing readers.now }
    ensures { IsNextOfSend readers.now known.now turns slot result }
{
    match first_lagging(readers, known, turns) {
        Some(reader) => Upcoming::Ask { reader },
        None => Upcoming::Put { slot },
    }
}

/// Executes the items from number `from` to below number `to`, as `Port::run` does.
#[inline(always)]
fn run_on<W: Word, P: Port<W>>(port: &mut P, slots: &[u32], from: u32, to: u32, last: W) -> W
    requires can { InEachLane W.Word (λ view. CanRun view slots.now from to) (P.seen port.old) }
    requires last { InEachLaneOf W.Word last (λ view v. IsLastValue view v) (P.seen port.old) }
    ensures run { HasRun (P.seen port.old) (P.seen port.new) to }
    ensures last { InEachLaneOf W.Word result (λ view v. IsLastValue view v) (P.seen port.new) }
    ensures rows { P.rows port.new ≡ P.rows port.old }
{
    // half of all calls find none
    if to <= from {
        return last;
    }
    port.run(slots, from, to, last)
}

/// Begins the turn and executes its items below number `to`, if it is one that the port `runs`, and answers the value
/// of the last of them.
fn enter<W: Word, P: Port<W>>(port: &mut P, slots: &[u32], to: u32, runs: bool) -> W
    requires { InEachLane W.Word (λ view. CanEnter view slots.now to runs) (P.seen port.old) }
    ensures entered { HasEntered (P.seen port.old) (P.seen port.new) to runs }
    ensures last { InEachLaneOf W.Word result (λ view v. IsLastValue view v) (P.seen port.new) }
    ensures rows { P.rows port.new ≡ P.rows port.old }
{
    let none = W::of(V4::Undef);
    if runs {
        port.begin_turn();
        run_on(port, slots, 0, to, none)
    } else {
        none
    }
}

impl<'a, W: Word, P: Port<W>> Walk<'a, W, P> {
    /// The walk of a port that is before its first turn up to the turn `until`, where the image has it as `port_image`, and
    /// these are the lists of `lists_of`.
    pub fn new(
        port: P,
        port_image: &'a PortImage,
        slots: List<u32>,
        stops: List<Stop>,
        readers: Readers,
        until: u64,
    ) -> Walk<'a, W, P>
        requires image { IsWellFormed (P.seen port).image }
        requires valid { InEachLane W.Word (λ view. IsValidStimulus view.stimulus) (P.seen port) }
        requires port_image { IsPort (P.seen port).image (P.seen port).port port_image.now }
        requires first { P.seen port ≡ at_first (P.seen port).image (P.seen port).stimulus (P.seen port).port }
        requires slots { slots ≡ item_slots port_image.now.work }
        requires stops { AreStops (out_slots port_image.now.outs) (in_slots port_image.now.ins) (P.seen port).image.slots slots stops }
        requires readers { AreReaders (length port_image.now.outs) port_image.now.outs readers }
        requires until { InEachLane W.Word (λ view. until ≤ last_turn view) (P.seen port) }
        ensures { result ≡ started (P.seen port) (P.rows port) until }
    {
        let mut port = port;
        let value = enter(
            &mut port,
            slots.as_slice(),
            stops.as_slice()[0].items,
            1 <= until,
        );
        Walk {
            port,
            port_image,
            slots,
            readers,
            stops,
            at: 0,
            sent: 0,
            took: 0,
            value,
            turn: 1,
            until,
        }
    }

    /// The next event, with so many banks, by what is known of how many turns each port has finished. The value of a
    /// Put is that of `value`.
    #[inline]
    pub fn next(&self, known: &[u64], banks: u32) -> Upcoming
        requires { length known.now ≡ length self.now.stand.image.ports }
        ensures { IsNextOf self.now.stand known.now banks result }
    {
        if self.until < self.turn {
            return Upcoming::Done;
        }
        let stop = self.stops.as_slice()[self.at];
        match stop.kind {
            StopKind::Send => {
                let readers = readers_at(&self.readers, self.sent);
                let turns = turns_wanted(self.turn, banks);
                next_of_send(readers, known, turns, stop.slot)
            }
            StopKind::Receive => Upcoming::Take { slot: stop.slot },
            StopKind::End => Upcoming::Tell,
        }
    }

    /// The value of the Put that is next, where one is.
    #[inline]
    pub fn value(&self) -> W
        ensures { IsNextValue W.Word self.now result }
    {
        self.value
    }

    /// The number of the send whose Put is missing next, in slot order.
    #[inline]
    pub fn next_send(&self) -> usize
        requires { CanPut self.now.stand }
        ensures { IsNextSend self.now.stand result }
    {
        self.sent
    }

    /// The number of the receipt whose Take is missing next, in slot order.
    #[inline]
    pub fn next_receipt(&self) -> usize
        requires { CanTake self.now.stand }
        ensures { IsNextReceipt self.now.stand result }
    {
        self.took
    }

    /// The Put that was next is made.
    #[inline]
    pub fn put_done(&mut self)
        requires { CanPut self.old.stand }
        ensures { HasPut self.old self.new }
    {
        let stops = self.stops.as_slice();
        let from = stops[self.at].items;
        let to = stops[self.at + 1].items;
        self.value = run_on(&mut self.port, self.slots.as_slice(), from, to, self.value);
        self.at += 1;
        self.sent += 1;
    }

    /// The Take that was next is made, and gave this value.
    #[inline]
    pub fn took(&mut self, v: W)
        requires { CanTakeValue W.Word self.old v }
        ensures { HasTaken self.old self.new }
    {
        let stops = self.stops.as_slice();
        let stop = stops[self.at];
        let to = stops[self.at + 1].items;
        self.port.receive(stop.slot, v);
        self.value = run_on(
            &mut self.port,
            self.slots.as_slice(),
            stop.items,
            to,
            self.value,
        );
        self.at += 1;
        self.took += 1;
    }

    /// The Tell that was next is made: the next turn begins, if it isn't past the last.
    #[inline]
    pub fn told(&mut self)
        requires end { IsEnding self.old.stand }
        requires room { HasRowRoom self.old }
        ensures { self.new ≡ in_next_turn self.old }
    {
        self.port.end_turn();
        self.turn += 1;
        self.at = 0;
        self.sent = 0;
        self.took = 0;
        let first = self.stops.as_slice()[0].items;
        let runs = self.turn <= self.until;
        self.value = enter(&mut self.port, self.slots.as_slice(), first, runs);
    }

    /// The turn that it is in, or the last one plus one when it rests.
    #[inline]
    pub fn turn(&self) -> u64
        ensures { result ≡ self.now.stand.turn }
    {
        self.turn
    }

    /// The last turn that it executes.
    #[inline]
    pub fn until(&self) -> u64
        ensures { result ≡ self.now.stand.until }
    {
        self.until
    }

    /// The port within.
    #[inline]
    pub fn port(&self) -> &P
        ensures { IsWithin self.now (P.seen result.now) (P.rows result.now) }
    {
        &self.port
    }
}

impl<'a> Walk<'a, V4, Kind<'a>> {
    /// A plain port that rests goes on up to the turn `until`: the next turn begins. The host gives up the rows that are
    /// done.
    #[inline]
    pub(crate) fn go_on(&mut self, until: u64)
        requires rests { self.old.stand.turn ≡ self.old.stand.until + 1 }
        requires more { self.old.stand.turn ≤ until }
        requires until { until ≤ turn_count (timing_of self.old.stand.image) self.old.stimulus }
        ensures { self.new ≡ rests_no_more self.old until }
    {
        give_up(&mut self.port);
        self.until = until;
        let first = self.stops.as_slice()[0].items;
        self.value = enter(&mut self.port, self.slots.as_slice(), first, true);
    }
}
