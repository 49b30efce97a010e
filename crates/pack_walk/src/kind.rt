//! The kinds of packed port, behind one contract.

ghost use Rattle.std.specs.Prelude.{◌≡◌, ◌<◌, length, IfOk};
ghost use Rattle.stim_text.specs.Lanes.{AreLanes};
ghost use Rattle.image_defs.specs.WellFormed.{IsWellFormed};
ghost use Rattle.pack_walk.specs.code.Kinds.{view_in, rows_in, IsFirst};

use crate::PackHost;
use image_defs::{Image, Work};
use lane_planes::Planes;
use port_array::ArrayPort;
use port_bank::Port;
use port_logic::LogicPort;
use seen_list::Memory;
use std::alloc::Global;
use stim_text::Lanes;

/// A packed port in its run, by its kind.
#[derive(Drop)]
pub(crate) enum PackKind<'a> {
    Logic(LogicPort<'a, Planes>),
    Array(ArrayPort<'a, Planes>),
    Host(PackHost<'a>),
}

impl<'a> Port<Planes> for PackKind<'a> {
    ghost seen = { view_in };

    ghost rows = { rows_in };

    fn begin_turn(&mut self) {
        match self {
            PackKind::Logic(port) => port.begin_turn(),
            PackKind::Array(port) => port.begin_turn(),
            PackKind::Host(port) => port.begin_turn(),
        }
    }

    fn execute(&mut self, slot: u32) -> Planes {
        match self {
            PackKind::Logic(port) => port.execute(slot),
            PackKind::Array(port) => port.execute(slot),
            PackKind::Host(port) => port.execute(slot),
        }
    }

    #[inline]
    fn receive(&mut self, slot: u32, v: Planes) {
        match self {
            PackKind::Logic(port) => port.receive(slot, v),
            PackKind::Array(port) => port.receive(slot, v),
            PackKind::Host(port) => port.receive(slot, v),
        }
    }

    fn end_turn(&mut self) {
        match self {
            PackKind::Logic(port) => port.end_turn(),
            PackKind::Array(port) => port.end_turn(),
            PackKind::Host(port) => port.end_turn(),
        }
    }

    /// By the loop of the port's kind.
    fn run(&mut self, slots: &[u32], from: u32, to: u32, last: Planes) -> Planes {
        match self {
            PackKind::Logic(port) => port.run(slots, from, to, last),
            PackKind::Array(port) => port.run(slots, from, to, last),
            PackKind::Host(port) => port.run(slots, from, to, last),
        }
    }
}

/// Packed port number `port` of the image before its first turn.
pub(crate) fn first_kind<'a>(
    alloc: Global,
    image: &'a Image,
    lanes: &'a Lanes,
    port: u32,
) -> Result<PackKind<'a>, Memory>
    requires image { IsWellFormed image.now }
    requires lanes { AreLanes image.now.columns lanes.now }
    requires there { port < length image.now.ports }
    ensures { IfOk result (IsFirst image.now lanes.now port) }
{
    match &image.ports.as_slice()[port as usize].work {
        Work::Logic { .. } => Ok(PackKind::Logic(LogicPort::new(alloc, image, lanes, port)?)),
        Work::Array { .. } => Ok(PackKind::Array(ArrayPort::new(alloc, image, lanes, port)?)),
        Work::Host { .. } => Ok(PackKind::Host(PackHost::new(alloc, image, lanes)?)),
    }
}
