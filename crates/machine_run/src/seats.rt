//! The members of a crew: each a port beside its crossbar.

ghost use Rattle.std.specs.Prelude.{IfOk, ◌≡◌};
ghost use Rattle.machine_run.specs.{Crews.at_first, Dealt.IsSeatOf, code.Dealt.CanSeat};

use crate::deal::Seats;
use image_defs::Image;
use net_defs::Stimulus;
use port_run::{Running, Seated};
use port_walk::AnyPort;
use seen_list::Memory;
use slot_words::{Crossbar, Pass};
use std::alloc::Global;

/// What the members of a crew of so many workers are made of, beside their passes.
#[derive(Clone, Copy)]
pub(crate) struct CrewSeats<'a> {
    pub(crate) bar: &'a Crossbar,
    pub(crate) image: &'a Image,
    pub(crate) stim: &'a Stimulus,
    pub(crate) workers: u32,
    pub(crate) window: u32,
}

impl<'a> Seats for CrewSeats<'a> {
    ghost use Rattle.std.specs.Prelude.{length};
    ghost use Rattle.machine_run.specs.{Crews.at_first, Dealt.IsSeatOf, code.Dealt.CanSeat};

    type Pass = Pass;

    type Seat = Seated<'a>;

    ghost pass_port = { λ pass. pass.port };

    ghost ports = { λ seats. length seats.image.now.ports };

    ghost may = { CanSeat };

    ghost fits = { λ seats. IsSeatOf (at_first seats.image.now seats.stim.now seats.workers seats.window) };

    /// The port of the pass beside its crossbar, in turn 1.
    fn seat(&self, alloc: Global, pass: Pass) -> Result<Seated<'a>, Memory>
        requires { CanSeat self.now pass }
        ensures fits { IfOk result (IsSeatOf (at_first self.now.image.now self.now.stim.now self.now.workers self.now.window)) }
        ensures port { IfOk result (λ seat. seat.run.pass.port ≡ pass.port) }
    {
        let port = AnyPort::new(alloc, self.image, self.stim, pass.port(), self.window)?;
        let run = Running::new(pass, port);
        Ok(Seated { bar: self.bar, run })
    }
}
