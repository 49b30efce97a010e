//! The words that ports share, whatever numbers they hold.

ghost use Rattle.std.specs.Prelude.{None, Some, if◌then◌else◌, length, ◌%◌, ◌<◌, ◌≡◌, ◌≤◌};
ghost use Rattle.event_defs.specs.Places.{after_ask, after_tell, known_of};
ghost use Rattle.slot_words.specs.Passes.{CanPutIn, CanTake, CanTell, HasPut, HasTaken, IsFit, IsOf, IsRunning, one_step};
ghost use Rattle.slot_words.specs.Layout.{progress_word, turns_told};

use crate::feed::Feed;
use crate::pass::Pass;
use crate::rule::{Key, Law, UNCLAIMED, View};
use crate::{links, steps};
use atomic_table::Table;
use std::alloc::Global;
use std::marker::Model;

/// The words of an image with a feed.
#[derive(Drop)]
pub struct Words<D, F: Feed<D>> {
    pub(crate) table: Table<(), View<D>, Key<D>, Law<F>, Global>,
    pub(crate) banks: u32,
}

impl<D, F: Feed<D>> Model for Words<D, F> {
    ghost use Rattle.slot_words.specs.Passes.{WordsView};

    ghost Value = { WordsView D };

    ghost use Rattle.slot_words.specs.Held.{HasWords, words_of};

    ghost view = { words_of };

    ghost invariant = { HasWords F.Feed };
}

/// The turns that a progress word tells to be finished.
fn told(number: u64) -> u64
    ensures { result ≡ turns_told number }
{
    if number == UNCLAIMED { 0 } else { number }
}

/// A number that was read, if it is of this turn.
fn taken(number: u64, now: bool) -> Option<u64>
    ensures { result ≡ (if now then Some number else None) }
{
    if now { Some(number) } else { None }
}

impl<D, F: Feed<D>> Words<D, F> {
    /// How many turns a reader has finished: one step. The pass knows it from then on.
    pub fn ask(&self, pass: &mut Pass<D, F>, reader: u32) -> u64
        requires own { IsOf self.now pass.old }
        requires running { IsRunning F.Feed pass.old }
        requires reader { reader < length self.now.image.ports }
        ensures step { pass.new ≡ one_step pass.old (after_ask pass.old.place reader result) (progress_word reader) result }
        ensures more { known_of pass.old.place reader ≤ result }
        ensures known { known_of pass.new.place reader ≡ result }
    {
        let shared = &self.table.shared;
        let finished = told(steps::ask(shared, &mut pass.seat, reader as usize));
        pass.known.set(reader as usize, finished);
        finished
    }

    /// Writes the number of this turn in a slot: one step.
    pub fn put(&self, pass: &mut Pass<D, F>, slot: u32, number: u64)
        requires own { IsOf self.now pass.old }
        requires running { IsRunning F.Feed pass.old }
        requires can { CanPutIn pass.old slot }
        requires sent { F.sent pass.old.image pass.old.feed pass.old.port slot pass.old.place.turn number }
        ensures { HasPut pass.old slot number pass.new }
    {
        let k = links::find(pass.sends.as_slice(), pass.last_send, slot);
        pass.last_send = k + 1;
        let first = pass.sends.as_slice()[k].word;
        let word = links::word_in_turn(first, pass.turn, pass.banks);
        let shared = &self.table.shared;
        steps::put(shared, &mut pass.seat, word, number);
    }

    /// Reads what is sent in a slot, and takes it if it is of this turn: one step.
    pub fn take(&self, pass: &mut Pass<D, F>, slot: u32) -> Option<u64>
        requires own { IsOf self.now pass.old }
        requires running { IsRunning F.Feed pass.old }
        requires can { CanTake pass.old slot }
        ensures taken { HasTaken F.Feed pass.old slot result pass.new }
        ensures fit { IsFit F.Feed pass.old }
    {
        let k = links::find(pass.receipts.as_slice(), pass.last_receipt, slot);
        let first = pass.receipts.as_slice()[k].word;
        let word = links::word_in_turn(first, pass.turn, pass.banks);
        let shared = &self.table.shared;
        let number = steps::take(shared, &mut pass.seat, word);
        let now = F::is_of(number, pass.turn);
        pass.last_receipt = links::next_hint(k, now);
        taken(number, now)
    }

    /// Tells that the turn is finished: one step. The next turn begins.
    pub fn tell(&self, pass: &mut Pass<D, F>)
        requires own { IsOf self.now pass.old }
        requires running { IsRunning F.Feed pass.old }
        requires can { CanTell pass.old }
        ensures { pass.new ≡ one_step pass.old (after_tell pass.old.place) (progress_word pass.old.port) pass.old.place.turn }
    {
        let shared = &self.table.shared;
        steps::tell(shared, &mut pass.seat, pass.port as usize, pass.turn);
        pass.turn += 1;
    }
}
