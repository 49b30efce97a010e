//! The packed crossbar: words that hold the values of all lanes.

ghost use Rattle.std.specs.Prelude.{IfOk, length, ◌<◌, ◌≡◌, ◌≤◌};
ghost use Rattle.image_defs.specs.WellFormed.{IsWellFormed};
ghost use Rattle.stim_text.specs.Lanes.{AreLanes};
ghost use Rattle.event_defs.specs.Places.{after_ask, after_tell, known_of};
ghost use Rattle.slot_words.specs.packed.Passes.{CanPut, CanTake, CanTell, IsMade, IsOf, IsPut, IsRunning, IsTake, one_step};
ghost use Rattle.slot_words.specs.{Layout.progress_word, code.PackedWords.IsTakenOf};

use crate::feed::Feed;
use crate::pack_words::words::{PackTaken, packed_word, planes_of};
use crate::words::Words;
use image_defs::Image;
use lane_planes::Planes;
use seen_list::{List, Memory};
use std::alloc::Global;
use std::marker::Model;
use std::sync::Wait;
use stim_text::Lanes;

/// Words that hold the planes of all lanes, with the turn modulo 16 in which they were put. There is one bank.
pub struct Packed;

impl Feed<Lanes> for Packed {
    ghost use Rattle.slot_words.specs.packed.Words.{Fits, HasPlanes, is_of as is_of_turn, turns_of};
    ghost use Rattle.slot_words.specs.packed.Laws.{packed_few, packed_tells};

    ghost runs = { Fits };

    ghost turns = { turns_of };

    ghost sent = { HasPlanes };

    ghost of_turn = { is_of_turn };

    ghost most_banks = { 1 };

    #[inline]
    fn is_of(number: u64, turn: u64) -> bool {
        number % 16 == turn % 16
    }

    ghost few = { packed_few };

    ghost tells = { packed_tells };
}

/// The pass of a port of a packed crossbar. A contract sees the lanes as its feed.
pub type PackPass = crate::pass::Pass<Lanes, Packed>;

/// The words that the packed ports of an image share, one for each port and one for each send. It may be
/// shared by threads. A contract sees which words they are, the key of their rule, and for which image and
/// lanes they are.
#[derive(Drop)]
pub struct PackBar {
    words: Words<Lanes, Packed>,
}

impl Model for PackBar {
    ghost use Rattle.slot_words.specs.packed.Passes.{BarView};

    ghost Value = { BarView };

    ghost view = { λ a. a.words };
}

/// What a word that was taken gives.
fn taken_of(found: Option<u64>) -> PackTaken
    ensures { IsTakenOf found result }
{
    match found {
        Some(word) => PackTaken::Value(planes_of(word)),
        None => PackTaken::NotYet,
    }
}

impl PackBar {
    /// The words of an image with lanes, and one pass for each port, in their order, each before its first
    /// event. It may begin again with new words, without a bound on how often, so what it promises holds if
    /// it returns.
    pub fn make<R: Wait>(
        rt: &R,
        alloc: Global,
        image: &Image,
        lanes: &Lanes,
    ) -> Result<(PackBar, List<PackPass>), Memory>
        requires image { IsWellFormed image.now }
        requires lanes { AreLanes image.now.columns lanes.now }
        ensures { IfOk result (λ made. IsMade image.now lanes.now 1 made.0 made.1) }
    {
        let (words, passes) = Words::make(rt, alloc, image, lanes, 1)?;
        Ok((PackBar { words }, passes))
    }

    /// How many turns a reader has finished: one step. The pass knows it from then on.
    pub fn ask(&self, pass: &mut PackPass, reader: u32) -> u64
        requires own { IsOf self.now pass.old }
        requires running { IsRunning pass.old }
        requires reader { reader < length self.now.image.ports }
        ensures step { pass.new ≡ one_step pass.old (after_ask pass.old.place reader result) (progress_word reader) result }
        ensures more { known_of pass.old.place reader ≤ result }
        ensures known { known_of pass.new.place reader ≡ result }
    {
        self.words.ask(pass, reader)
    }

    /// Writes the values of this turn in a slot, one a lane: one step.
    pub fn put(&self, pass: &mut PackPass, slot: u32, v: Planes)
        requires own { IsOf self.now pass.old }
        requires running { IsRunning pass.old }
        requires can { CanPut pass.old slot v }
        ensures { IsPut pass.old slot v pass.new }
    {
        let number = packed_word(pass.turn(), v);
        self.words.put(pass, slot, number);
    }

    /// Reads what is sent in a slot, and takes it if it is of this turn: one step.
    pub fn take(&self, pass: &mut PackPass, slot: u32) -> PackTaken
        requires own { IsOf self.now pass.old }
        requires running { IsRunning pass.old }
        requires can { CanTake pass.old slot }
        ensures { IsTake pass.old slot result pass.new }
    {
        taken_of(self.words.take(pass, slot))
    }

    /// Tells that the turn is finished: one step. The next turn begins.
    pub fn tell(&self, pass: &mut PackPass)
        requires own { IsOf self.now pass.old }
        requires running { IsRunning pass.old }
        requires can { CanTell pass.old }
        ensures { pass.new ≡ one_step pass.old (after_tell pass.old.place) (progress_word pass.old.port) pass.old.place.turn }
    {
        self.words.tell(pass);
    }
}
