//! The members of a packed crew: each a packed port beside its crossbar.

ghost use Rattle.std.specs.Prelude.{IfOk, ◌≡◌};
ghost use Rattle.pack_machine.specs.code.{Crews.at_first, Dealt.CanSeat, Dealt.IsSeatOf};

use image_defs::Image;
use machine_run::Seats;
use pack_run::{PackPort, PackRunning, PackSeated};
use seen_list::Memory;
use slot_words::pack_words::{PackBar, PackPass};
use std::alloc::Global;
use stim_text::Lanes;

/// What the members of a crew of so many workers are made of, beside their passes.
#[derive(Clone, Copy)]
pub(crate) struct PackSeats<'a> {
    pub(crate) bar: &'a PackBar,
    pub(crate) image: &'a Image,
    pub(crate) lanes: &'a Lanes,
    pub(crate) workers: u32,
}

impl<'a> Seats for PackSeats<'a> {
    ghost use Rattle.std.specs.Prelude.{length};
    ghost use Rattle.pack_machine.specs.code.{Crews.at_first, Dealt.CanSeat, Dealt.IsSeatOf};

    type Pass = PackPass;

    type Seat = PackSeated<'a>;

    ghost pass_port = { λ pass. pass.port };

    ghost ports = { λ seats. length seats.image.now.ports };

    ghost may = { CanSeat };

    ghost fits = { λ seats. IsSeatOf (at_first seats.image.now seats.lanes.now seats.workers) };

    /// The port of the pass beside its crossbar, before its first event.
    fn seat(&self, alloc: Global, pass: PackPass) -> Result<PackSeated<'a>, Memory>
        requires { CanSeat self.now pass }
        ensures fits { IfOk result (IsSeatOf (at_first self.now.image.now self.now.lanes.now self.now.workers)) }
        ensures port { IfOk result (λ seat. seat.run.port ≡ pass.port) }
    {
        let port = PackPort::new(alloc, self.image, self.lanes, pass.port())?;
        let run = PackRunning::new(pass, port);
        Ok(PackSeated { bar: self.bar, run })
    }
}
