//! A packed port of any kind with its place in the turn.

ghost use Rattle.std.specs.Prelude.{◌≡◌, ◌≢◌, ◌<◌, length, IfOk, MatchOption};
ghost use Rattle.image_defs.specs.{Places.host_of, WellFormed.IsWellFormed};
ghost use Rattle.stim_text.specs.Lanes.{AreLanes};
ghost use Rattle.pack_walk.specs.Placed.{at_start, in_next_turn, last_turn, IsNextOf, CanPut, CanTake, IsEnding, HasPut, HasTaken, IsNextValue, IsHostIn};

use crate::PackHost;
use crate::kind::{PackKind, first_kind};
use image_defs::Image;
use lane_planes::Planes;
use port_walk::lists::lists_of;
use port_walk::{Upcoming, Walk};
use seen_list::Memory;
use std::alloc::Global;
use std::marker::Model;
use stim_text::Lanes;

/// A packed port of any kind with its place in the turn. After each call it has executed all its items in
/// the slots up to that of its next event; more it can't execute before that. Once it has finished the last
/// turn it rests. A contract sees whose image and lanes it runs, and its place.
#[derive(Drop)]
pub struct PackPlaced<'a> {
    walk: Walk<'a, Planes, PackKind<'a>>,
}

impl<'a> Model for PackPlaced<'a> {
    ghost use Rattle.pack_walk.specs.Placed.{PlacedPack};

    ghost Value = { PlacedPack };

    ghost use Rattle.pack_walk.specs.Kept.{view_of, IsKept};

    ghost view = { view_of };

    ghost invariant = { IsKept };
}

impl<'a> PackPlaced<'a> {
    /// The packed port of this number before its first event. It takes memory for what its kind needs,
    /// which for the host is that of all cells, and for its items, sends, readers and receipts. No later
    /// call takes any.
    pub fn new(
        alloc: Global,
        image: &'a Image,
        lanes: &'a Lanes,
        port: u32,
    ) -> Result<PackPlaced<'a>, Memory>
        requires image { IsWellFormed image.now }
        requires lanes { AreLanes image.now.columns lanes.now }
        requires there { port < length image.now.ports }
        ensures { IfOk result (λ made. made ≡ at_start image.now lanes.now port) }
    {
        let port_image = &image.ports.as_slice()[port as usize];
        let (slots, stops, readers) = lists_of(alloc, image, port_image)?;
        let kind = first_kind(alloc, image, lanes, port)?;
        let until = image.units as u64 * lanes.cycles() as u64;
        Ok(PackPlaced {
            walk: Walk::new(kind, port_image, slots, stops, readers, until),
        })
    }

    /// The next event, by what is known of how many turns each port has finished. The values of a Put
    /// are those of `value`.
    #[inline]
    pub fn next(&self, known: &[u64]) -> Upcoming
        requires { length known.now ≡ length self.now.image.ports }
        ensures { IsNextOf self.now known.now result }
    {
        self.walk.next(known, 1)
    }

    /// The values of the Put that is next.
    #[inline]
    pub fn value(&self) -> Planes
        requires { CanPut self.now }
        ensures { IsNextValue self.now result }
    {
        self.walk.value()
    }

    /// The Put that was next is made.
    #[inline]
    pub fn put_done(&mut self)
        requires { CanPut self.old }
        ensures { HasPut self.old self.new }
    {
        self.walk.put_done();
    }

    /// The Take that was next is made, and gave these values.
    #[inline]
    pub fn took(&mut self, values: Planes)
        requires { CanTake self.old values }
        ensures { HasTaken self.old self.new }
    {
        self.walk.took(values);
    }

    /// The Tell that was next is made: the next turn begins, if there is one.
    pub fn told(&mut self)
        requires { IsEnding self.old }
        ensures { self.new ≡ in_next_turn self.old }
    {
        self.walk.told();
    }

    /// The turn that it is in, or the last one plus one when it rests.
    #[inline]
    pub fn turn(&self) -> u64
        ensures { result ≡ self.now.turn }
    {
        self.walk.turn()
    }

    /// The last turn that it executes.
    pub fn last_turn(&self) -> u64
        ensures { result ≡ last_turn self.now }
    {
        self.walk.until()
    }

    /// The port as the host, which has the cells of the cycles that are over. `None` exactly where it is
    /// another.
    pub fn host(&self) -> Option<&PackHost<'a>>
        ensures { MatchOption result
            (self.now.port ≢ host_of self.now.image)
            (λ host. IsHostIn self.now host.now) }
    {
        match self.walk.port() {
            PackKind::Host(host) => Some(host),
            PackKind::Logic(_) => None,
            PackKind::Array(_) => None,
        }
    }
}
