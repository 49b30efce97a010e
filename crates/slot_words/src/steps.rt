//! The four steps of a pass: each is counted, and loads or stores one word where the rule allows it.

ghost use Rattle.std.specs.Prelude.{◌<◌, ◌≡◌};
ghost use mathlib.Core.Option.{none};
ghost use Rattle.atomic_table.specs.Table.{step};
ghost use Rattle.slot_words.specs.code.Plays.{Ends, Learns, MayAsk, MayPut, MayTake, MayTell, Reads, Writes};

use crate::feed::Feed;
use crate::rule::{Asks, Key, Law, Puts, Takes, Tells, View};
use atomic_table::{Seat, Shared};

/// Loads a reader's progress word.
pub(crate) fn ask<D, F: Feed<D>>(
    shared: &Shared<(), View<D>, Key<D>, Law<F>>,
    seat: &mut Seat<(), View<D>>,
    word: usize,
) -> u64
    requires own { seat.old.table_id ≡ shared.now.table_id }
    requires inside { word < shared.now.table_id.words }
    requires may { MayAsk F.Feed shared.now.key shared.now.table_id.slots seat.old.id seat.old.me word }
    ensures table { seat.new.table_id ≡ seat.old.table_id }
    ensures id { seat.new.id ≡ seat.old.id }
    ensures learns { Learns (step shared.now.table_id.slots word 0 0 none) seat.old.me result seat.new.me }
{
    shared.load::<Asks>(seat, word)
}

/// Stores a number in a word of a send.
pub(crate) fn put<D, F: Feed<D>>(
    shared: &Shared<(), View<D>, Key<D>, Law<F>>,
    seat: &mut Seat<(), View<D>>,
    word: usize,
    number: u64,
)
    requires own { seat.old.table_id ≡ shared.now.table_id }
    requires inside { word < shared.now.table_id.words }
    requires may { MayPut F.Feed shared.now.key shared.now.table_id.slots seat.old.id seat.old.me word number }
    ensures table { seat.new.table_id ≡ seat.old.table_id }
    ensures id { seat.new.id ≡ seat.old.id }
    ensures writes { Writes (step shared.now.table_id.slots word number 0 none) seat.old.me number seat.new.me }
{
    shared.store::<Puts>(seat, word, number);
}

/// Loads a word of a send.
pub(crate) fn take<D, F: Feed<D>>(
    shared: &Shared<(), View<D>, Key<D>, Law<F>>,
    seat: &mut Seat<(), View<D>>,
    word: usize,
) -> u64
    requires own { seat.old.table_id ≡ shared.now.table_id }
    requires inside { word < shared.now.table_id.words }
    requires may { MayTake F.Feed shared.now.key shared.now.table_id.slots seat.old.id seat.old.me word }
    ensures table { seat.new.table_id ≡ seat.old.table_id }
    ensures id { seat.new.id ≡ seat.old.id }
    ensures reads { Reads F.Feed (step shared.now.table_id.slots word 0 0 none) seat.old.me result seat.new.me }
{
    shared.load::<Takes<F>>(seat, word)
}

/// Stores a turn in the own progress word.
pub(crate) fn tell<D, F: Feed<D>>(
    shared: &Shared<(), View<D>, Key<D>, Law<F>>,
    seat: &mut Seat<(), View<D>>,
    word: usize,
    turn: u64,
)
    requires own { seat.old.table_id ≡ shared.now.table_id }
    requires inside { word < shared.now.table_id.words }
    requires may { MayTell F.Feed shared.now.key shared.now.table_id.slots seat.old.id seat.old.me word turn }
    ensures table { seat.new.table_id ≡ seat.old.table_id }
    ensures id { seat.new.id ≡ seat.old.id }
    ensures ends { Ends (step shared.now.table_id.slots word turn 0 none) seat.old.me turn seat.new.me }
{
    shared.store::<Tells>(seat, word, turn);
}
