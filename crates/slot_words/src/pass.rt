//! The pass of a port.

ghost use Rattle.std.specs.Prelude.{◌≡◌};
ghost use Rattle.slot_words.specs.Passes.{IsFit};

use crate::feed::Feed;
use crate::links::Link;
use crate::rule::View;
use atomic_table::Seat;
use seen_list::List;
use std::marker::{Model, PhantomData};

/// The right to step as one port of a crossbar. Whoever has it alone changes where the port stands. It
/// may go from thread to thread. A contract sees its crossbar's words, its port, image and feed, the
/// banks, its place, the number of steps that it has made, and the word and the number of the last. The
/// steps are those of `ask`, `put`, `take` and `tell`. What `make` does to give the pass isn't counted, and
/// the rule lets no pass do it again.
#[derive(Drop)]
pub struct Pass<D, F: Feed<D>> {
    pub(crate) seat: Seat<(), View<D>>,
    pub(crate) port: u32,
    pub(crate) banks: u32,
    pub(crate) turn: u64,
    pub(crate) known: List<u64>,
    pub(crate) sends: List<Link>,
    pub(crate) receipts: List<Link>,
    pub(crate) last_send: usize,
    pub(crate) last_receipt: usize,
    pub(crate) feed: PhantomData<F>,
}

impl<D, F: Feed<D>> Model for Pass<D, F> {
    ghost use Rattle.slot_words.specs.Passes.{PassView};

    ghost Value = { PassView D };

    ghost use Rattle.slot_words.specs.Held.{IsHeld, pass_of};

    ghost view = { pass_of };

    ghost invariant = { IsHeld F.Feed };
}

impl<D, F: Feed<D>> Pass<D, F> {
    /// The number of its port.
    pub fn port(&self) -> u32
        ensures { result ≡ self.now.port }
    {
        self.port
    }

    /// The turn that it is in, or the number of turns and one more when it has ended the last.
    pub fn turn(&self) -> u64
        ensures turn { result ≡ self.now.place.turn }
        ensures fit { IsFit F.Feed self.now }
    {
        self.turn
    }

    /// For each port how many turns it is known to have finished.
    pub fn known(&self) -> &[u64]
        ensures known { result.now ≡ self.now.place.known }
        ensures fit { IsFit F.Feed self.now }
    {
        self.known.as_slice()
    }

    /// The number of words of each send.
    pub fn banks(&self) -> u32
        ensures { result ≡ self.now.banks }
    {
        self.banks
    }
}
