//! The kinds of plain port, behind one contract.

ghost use Rattle.std.specs.Prelude.{◌≡◌, ◌<◌, ◌≤◌, length, IfOk};
ghost use Rattle.net_defs.specs.Valid.{IsValidStimulus};
ghost use Rattle.image_defs.specs.WellFormed.{IsWellFormed};
ghost use Rattle.port_host.specs.Rows.{rows_done};
ghost use Rattle.port_walk.specs.{code.Enters.given_up, Kinds.view_in, Kinds.rows_in, code.Kinds.IsFirst};

use image_defs::{Image, Work};
use logic_four::V4;
use net_defs::Stimulus;
use port_array::ArrayPort;
use port_bank::Port;
use port_host::HostPort;
use port_logic::LogicPort;
use seen_list::Memory;
use std::alloc::Global;

/// A plain port in its run, by its kind.
#[derive(Drop)]
pub(crate) enum Kind<'a> {
    Logic(LogicPort<'a, V4>),
    Array(ArrayPort<'a, V4>),
    Host(HostPort<'a>),
}

impl<'a> Port<V4> for Kind<'a> {
    ghost seen = { view_in };

    ghost rows = { rows_in };

    fn begin_turn(&mut self) {
        match self {
            Kind::Logic(port) => port.begin_turn(),
            Kind::Array(port) => port.begin_turn(),
            Kind::Host(port) => port.begin_turn(),
        }
    }

    fn execute(&mut self, slot: u32) -> V4 {
        match self {
            Kind::Logic(port) => port.execute(slot),
            Kind::Array(port) => port.execute(slot),
            Kind::Host(port) => port.execute(slot),
        }
    }

    #[inline]
    fn receive(&mut self, slot: u32, v: V4) {
        match self {
            Kind::Logic(port) => port.receive(slot, v),
            Kind::Array(port) => port.receive(slot, v),
            Kind::Host(port) => port.receive(slot, v),
        }
    }

    fn end_turn(&mut self) {
        match self {
            Kind::Logic(port) => port.end_turn(),
            Kind::Array(port) => port.end_turn(),
            Kind::Host(port) => port.end_turn(),
        }
    }

    /// By the loop of the port's kind.
    fn run(&mut self, slots: &[u32], from: u32, to: u32, last: V4) -> V4 {
        match self {
            Kind::Logic(port) => port.run(slots, from, to, last),
            Kind::Array(port) => port.run(slots, from, to, last),
            Kind::Host(port) => port.run(slots, from, to, last),
        }
    }
}

/// Plain port number `port` of the image before its first turn. As the host it has this window.
pub(crate) fn first_kind<'a>(
    alloc: Global,
    image: &'a Image,
    stim: &'a Stimulus,
    port: u32,
    window: u32,
) -> Result<Kind<'a>, Memory>
    requires image { IsWellFormed image.now }
    requires stimulus { IsValidStimulus stim.now }
    requires columns { stim.now.columns ≡ image.now.columns }
    requires there { port < length image.now.ports }
    requires some { 1 ≤ window }
    ensures { IfOk result (IsFirst image.now stim.now port window) }
{
    match &image.ports.as_slice()[port as usize].work {
        Work::Logic { .. } => Ok(Kind::Logic(LogicPort::new(alloc, image, stim, port)?)),
        Work::Array { .. } => Ok(Kind::Array(ArrayPort::new(alloc, image, stim, port)?)),
        Work::Host { .. } => Ok(Kind::Host(HostPort::new(alloc, image, stim, window)?)),
    }
}

/// Gives up the rows that are done, if it is the host.
pub(crate) fn give_up(kind: &mut Kind<'_>)
    ensures view { view_in kind.new ≡ view_in kind.old }
    ensures rows { rows_in kind.new ≡ given_up (rows_in kind.old) (rows_done (view_in kind.old)) }
{
    match kind {
        Kind::Logic(_) => (),
        Kind::Array(_) => (),
        Kind::Host(host) => host.give_up(),
    }
}
