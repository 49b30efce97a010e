//! The crossbar: words that hold one value each.

ghost use Rattle.std.specs.Prelude.{IfOk, length, ◌*◌, ◌+◌, ◌<◌, ◌^◌, ◌≡◌, ◌≤◌};
ghost use Rattle.limits.specs.declared.TheConstants.{MAX_BANKS};
ghost use Rattle.logic_four.specs.Values.{code_of};
ghost use Rattle.net_defs.specs.Valid.{IsValidStimulus};
ghost use Rattle.image_defs.specs.WellFormed.{IsWellFormed};
ghost use Rattle.event_defs.specs.Places.{after_ask, after_tell, known_of};
ghost use Rattle.slot_words.specs.plain.Passes.{CanPut, CanTake, CanTell, IsMade, IsOf, IsPut, IsRunning, IsTake, one_step};
ghost use Rattle.slot_words.specs.{Layout.progress_word, code.PlainWords.IsTakenOf};

use crate::feed::Feed;
use crate::words::Words;
use image_defs::Image;
use logic_four::{V4, code, decoded};
use net_defs::Stimulus;
use seen_list::{List, Memory};
use std::alloc::Global;
use std::marker::Model;
use std::sync::Wait;

/// Words that hold one value each, with the turn in which it was put.
pub struct Plain;

impl Feed<Stimulus> for Plain {
    ghost use Rattle.limits.specs.declared.TheConstants.{MAX_BANKS};
    ghost use Rattle.slot_words.specs.plain.Words.{Fits, IsSent, is_of as is_of_turn, turns_of};
    ghost use Rattle.slot_words.specs.plain.Laws.{plain_few, plain_tells};

    ghost runs = { Fits };

    ghost turns = { turns_of };

    ghost sent = { IsSent };

    ghost of_turn = { is_of_turn };

    ghost most_banks = { MAX_BANKS };

    #[inline]
    fn is_of(number: u64, turn: u64) -> bool {
        number / 4 == turn
    }

    ghost few = { plain_few };

    ghost tells = { plain_tells };
}

/// The pass of a port of a crossbar. A contract sees the stimulus as its feed.
pub type Pass = crate::pass::Pass<Stimulus, Plain>;

/// The words that the ports of an image share. It may be shared by threads. A contract sees which words
/// they are, the key of their rule, and for which image, stimulus and number of banks they are.
#[derive(Drop)]
pub struct Crossbar {
    words: Words<Stimulus, Plain>,
}

impl Model for Crossbar {
    ghost use Rattle.slot_words.specs.plain.Passes.{CrossbarView};

    ghost Value = { CrossbarView };

    ghost view = { λ a. a.words };
}

/// What a `take` found.
#[derive(Clone, Copy)]
pub enum Taken {
    /// The sender's value of this turn.
    Value(V4),
    /// The word is of a turn before.
    NotYet,
}

/// The word of a value in a turn.
fn stamped(turn: u64, v: V4) -> u64
    requires { turn < 2 ^ 60 }
    ensures { result ≡ 4 * turn + code_of v }
{
    4 * turn + code(v)
}

/// What a number that was taken says.
fn taken_of(found: Option<u64>) -> Taken
    ensures { IsTakenOf found result }
{
    match found {
        Some(number) => Taken::Value(decoded(number)),
        None => Taken::NotYet,
    }
}

impl Crossbar {
    /// The words of an image with a stimulus, and one pass for each port, in their order, each before its
    /// first event. It may begin again with new words, without a bound on how often, so what it promises
    /// holds if it returns.
    pub fn make<R: Wait>(
        rt: &R,
        alloc: Global,
        image: &Image,
        stim: &Stimulus,
        banks: u32,
    ) -> Result<(Crossbar, List<Pass>), Memory>
        requires image { IsWellFormed image.now }
        requires stimulus { IsValidStimulus stim.now }
        requires columns { stim.now.columns ≡ image.now.columns }
        requires some { 1 ≤ banks }
        requires few { banks ≤ MAX_BANKS }
        ensures { IfOk result (λ made. IsMade image.now stim.now banks made.0 made.1) }
    {
        let (words, passes) = Words::make(rt, alloc, image, stim, banks)?;
        Ok((Crossbar { words }, passes))
    }

    /// How many turns a reader has finished: one step. The pass knows it from then on.
    pub fn ask(&self, pass: &mut Pass, reader: u32) -> u64
        requires own { IsOf self.now pass.old }
        requires running { IsRunning pass.old }
        requires reader { reader < length self.now.image.ports }
        ensures step { pass.new ≡ one_step pass.old (after_ask pass.old.place reader result) (progress_word reader) result }
        ensures more { known_of pass.old.place reader ≤ result }
        ensures known { known_of pass.new.place reader ≡ result }
    {
        self.words.ask(pass, reader)
    }

    /// Writes the value of this turn in a slot: one step.
    pub fn put(&self, pass: &mut Pass, slot: u32, v: V4)
        requires own { IsOf self.now pass.old }
        requires running { IsRunning pass.old }
        requires can { CanPut pass.old slot v }
        ensures { IsPut pass.old slot v pass.new }
    {
        let number = stamped(pass.turn(), v);
        self.words.put(pass, slot, number);
    }

    /// Reads what is sent in a slot, and takes it if it is of this turn: one step.
    pub fn take(&self, pass: &mut Pass, slot: u32) -> Taken
        requires own { IsOf self.now pass.old }
        requires running { IsRunning pass.old }
        requires can { CanTake pass.old slot }
        ensures { IsTake pass.old slot result pass.new }
    {
        taken_of(self.words.take(pass, slot))
    }

    /// Tells that the turn is finished: one step. The next turn begins.
    pub fn tell(&self, pass: &mut Pass)
        requires own { IsOf self.now pass.old }
        requires running { IsRunning pass.old }
        requires can { CanTell pass.old }
        ensures { pass.new ≡ one_step pass.old (after_tell pass.old.place) (progress_word pass.old.port) pass.old.place.turn }
    {
        self.words.tell(pass);
    }
}
