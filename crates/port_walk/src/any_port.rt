//! A port of any kind with its place in the turn.

ghost use Rattle.std.specs.Prelude.{◌≡◌, ◌≢◌, ◌+◌, ◌*◌, ◌<◌, ◌≤◌, min, length, IfOk, MatchOption};
ghost use Rattle.net_defs.specs.Valid.{IsValidStimulus};
ghost use Rattle.image_defs.specs.{Places.host_of, WellFormed.IsWellFormed};
ghost use Rattle.port_walk.specs.Placed.{at_start, in_next_block, in_next_turn, IsNextOf, CanGoOn, CanPut, CanTake, CanTakeValue, IsEnding, HasPut, HasTaken, IsNextSend, IsNextReceipt, IsHostIn};

use crate::kind::{Kind, first_kind};
use crate::lists::lists_of;
use crate::upcoming::Upcoming;
use crate::walk::Walk;
use event_defs::Action;
use image_defs::Image;
use logic_four::V4;
use net_defs::Stimulus;
use port_host::HostPort;
use seen_list::Memory;
use std::alloc::Global;
use std::marker::Model;

/// A port of any kind with its place in the turn. After each call it has executed all its items in
/// the slots up to that of its next event; more it can't execute before that. It runs the cycles in
/// blocks of at most `window` of them, one after the other, and rests at the end of each. A contract
/// sees whose image and stimulus it runs, its block, and its place.
#[derive(Drop)]
pub struct AnyPort<'a> {
    walk: Walk<'a, V4, Kind<'a>>,
    units: u32,
    cycles: u32,
    window: u32,
    first_row: u32,
}

impl<'a> Model for AnyPort<'a> {
    ghost use Rattle.port_walk.specs.Placed.{PlacedPort};

    ghost Value = { PlacedPort };

    ghost use Rattle.port_walk.specs.Blocks.{view_of, IsKept};

    ghost view = { view_of };

    ghost invariant = { IsKept };
}

/// The last turn of the block of at most so many cycles that comes after the first ones, where a run
/// has so many cycles.
fn last_turn(units: u32, cycles: u32, first_row: u32, window: u32) -> u64
    ensures { result ≡ units * min (first_row + window) cycles }
{
    let end = first_row as u64 + window as u64;
    units as u64 * end.min(cycles as u64)
}

impl<'a> AnyPort<'a> {
    /// The port of this number before its first event, with blocks of so many cycles. It takes memory
    /// for what its kind needs, which for the host is that of the rows of one block, and for its items,
    /// sends, readers and receipts. No later call takes any.
    pub fn new(
        alloc: Global,
        image: &'a Image,
        stim: &'a Stimulus,
        port: u32,
        window: u32,
    ) -> Result<AnyPort<'a>, Memory>
        requires image { IsWellFormed image.now }
        requires stimulus { IsValidStimulus stim.now }
        requires columns { stim.now.columns ≡ image.now.columns }
        requires there { port < length image.now.ports }
        requires some { 1 ≤ window }
        ensures { IfOk result (λ made. made ≡ at_start image.now stim.now port window) }
    {
        let port_image = &image.ports.as_slice()[port as usize];
        let (slots, stops, readers) = lists_of(alloc, image, port_image)?;
        let kind = first_kind(alloc, image, stim, port, window)?;
        let cycles = stim.cycles();
        let until = last_turn(image.units, cycles, 0, window);
        Ok(AnyPort {
            walk: Walk::new(kind, port_image, slots, stops, readers, until),
            units: image.units,
            cycles,
            window,
            first_row: 0,
        })
    }

    /// The next event, with so many banks, by what is known of how many turns each port has
    /// finished.
    #[inline]
    pub fn next(&self, known: &[u64], banks: u32) -> Action
        requires { length known.now ≡ length self.now.image.ports }
        ensures { IsNextOf self.now known.now banks result }
    {
        match self.walk.next(known, banks) {
            Upcoming::Ask { reader } => Action::Ask { reader },
            Upcoming::Put { slot } => Action::Put {
                slot,
                value: self.walk.value(),
            },
            Upcoming::Take { slot } => Action::Take { slot },
            Upcoming::Tell => Action::Tell,
            Upcoming::Done => Action::Done,
        }
    }

    /// The number of the send whose Put is missing next, in slot order.
    #[inline]
    pub fn next_send(&self) -> usize
        requires { CanPut self.now }
        ensures { IsNextSend self.now result }
    {
        self.walk.next_send()
    }

    /// The number of the receipt whose Take is missing next, in slot order.
    #[inline]
    pub fn next_receipt(&self) -> usize
        requires { CanTake self.now }
        ensures { IsNextReceipt self.now result }
    {
        self.walk.next_receipt()
    }

    /// The Put that was next is made.
    #[inline]
    pub fn put_done(&mut self)
        requires { CanPut self.old }
        ensures { HasPut self.old self.new }
    {
        self.walk.put_done();
    }

    /// The Take that was next is made, and gave this value.
    #[inline]
    pub fn took(&mut self, v: V4)
        requires { CanTakeValue self.old v }
        ensures { HasTaken self.old self.new }
    {
        self.walk.took(v);
    }

    /// The Tell that was next is made: the next turn begins, if it is one of its block.
    pub fn told(&mut self)
        requires { IsEnding self.old }
        ensures { self.new ≡ in_next_turn self.old }
    {
        self.walk.told();
    }

    /// Begins the next block: the first turn of it begins. The host gives up the rows of the block that is
    /// over.
    pub fn go_on(&mut self)
        requires { CanGoOn self.old }
        ensures { self.new ≡ in_next_block self.old }
    {
        self.first_row += self.window;
        let until = last_turn(self.units, self.cycles, self.first_row, self.window);
        self.walk.go_on(until);
    }

    /// The turn that it is in, or the last one of its block plus one when it rests.
    #[inline]
    pub fn turn(&self) -> u64
        ensures { result ≡ self.now.turn }
    {
        self.walk.turn
    }

    /// The last turn that it executes in its block.
    pub fn until(&self) -> u64
        ensures { result ≡ self.now.until }
    {
        self.walk.until
    }

    /// The port as the host, which has the rows of its block that are done. `None` exactly where it is
    /// another.
    pub fn host(&self) -> Option<&HostPort<'a>>
        ensures { MatchOption result
            (self.now.port ≢ host_of self.now.image)
            (λ host. IsHostIn self.now host.now) }
    {
        match &self.walk.port {
            Kind::Host(host) => Some(host),
            Kind::Logic(_) => None,
            Kind::Array(_) => None,
        }
    }
}
