//! What the rule speaks of: what a pass knows, the steps, and the rule itself.

ghost use Rattle.std.specs.Prelude.{ℕ};

use crate::feed::Feed;
use atomic_table::{Play, Split, TableRule};
use event_defs::Place;
use image_defs::Image;
use std::marker::PhantomData;
use std::snapshot::Snapshot;

/// What a progress word holds while no pass is its port's. Turns never come near it.
pub const UNCLAIMED: u64 = u64::MAX;

/// A word of a crossbar, by its place, and the number that a step found or left there.
pub struct Look {
    pub word: u64,
    pub number: u64,
}

/// What a pass is and knows: its port, its image and what that is fed with, where it stands, how many steps
/// it has made and what the last of them saw, and `at`, how many steps all passes had made with that one. No
/// value of it is made.
pub struct View<D> {
    pub port: Option<u32>,
    pub image: Image,
    pub feed: D,
    pub banks: u32,
    pub place: Place,
    pub steps: u64,
    pub last: Look,
    pub at: u64,
}

/// What is fixed when a crossbar is made.
#[derive(Drop)]
pub struct Key<D> {
    pub image: Snapshot<Image>,
    pub feed: Snapshot<D>,
    pub banks: u32,
}

/// The rule of the words of a feed.
pub struct Law<F> {
    feed: PhantomData<F>,
}

impl<D, F: Feed<D>> TableRule<(), View<D>, Key<D>> for Law<F> {
    ghost use Rattle.slot_words.specs.Rule.{Kept, nobody};

    ghost holds = { Kept F.Feed };

    ghost first = { nobody };
}

/// A second seat, which knows as much. It costs a load of word 0.
pub(crate) struct Copied;

impl<D> Split<View<D>> for Copied {
    ghost left = { λ v. v };

    ghost right = { λ v. v };
}

/// A seat claims the port of the word.
pub(crate) struct Names;

impl<D> Play<(), View<D>> for Names {
    ghost use Rattle.slot_words.specs.code.Plays.{Claims};

    ghost then = { Claims };
}

/// A pass looks how many turns a reader has finished.
pub(crate) struct Asks;

impl<D> Play<(), View<D>> for Asks {
    ghost use Rattle.slot_words.specs.code.Plays.{Learns};

    ghost then = { Learns };
}

/// A pass writes the word of what it sends.
pub(crate) struct Puts;

impl<D> Play<(), View<D>> for Puts {
    ghost use Rattle.slot_words.specs.code.Plays.{Writes};

    ghost then = { Writes };
}

/// A pass reads the word of what it receives.
pub(crate) struct Takes<F> {
    feed: PhantomData<F>,
}

impl<D, F: Feed<D>> Play<(), View<D>> for Takes<F> {
    ghost use Rattle.slot_words.specs.code.Plays.{Reads};

    ghost then = { Reads F.Feed };
}

/// A pass ends its turn.
pub(crate) struct Tells;

impl<D> Play<(), View<D>> for Tells {
    ghost use Rattle.slot_words.specs.code.Plays.{Ends};

    ghost then = { Ends };
}
