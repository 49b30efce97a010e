//! A running packed port beside its packed crossbar.

ghost use Rattle.slot_words.specs.packed.Passes.{IsOf};

use crate::running::PackRunning;
use crew_run::{Step, Stepper};
use slot_words::pack_words::PackBar;

/// A running packed port with the packed crossbar that gave its pass: a member of a crew. Its turns are those
/// of the longest lane, its steps those of the pass, and its events the same in each lane.
#[derive(Drop)]
pub struct PackSeated<'a> {
    pub bar: &'a PackBar,
    pub run: PackRunning<'a>,
    ghost own: { IsOf bar.now run },
}

impl<'a> Stepper for PackSeated<'a> {
    ghost use Rattle.std.specs.Prelude.{refl};
    ghost use Rattle.std.proofs.Common.{◌∙◌};
    ghost use Rattle.pack_run.specs.{Pairs.last_turn, Same.IsSame, Same.Takes, Steps.IsShort};

    ghost same = { λ a b. IsSame a.bar.now a.run b.bar.now b.run };

    ghost port = { λ a. a.run.port };

    ghost turn = { λ a. a.run.place.turn };

    ghost last_turn = { λ a. last_turn a.run };

    ghost steps = { λ a. a.run.steps };

    ghost short = { λ a. IsShort a.run };

    ghost takes = { λ a tells b. Takes a.run tells b.run };

    fn port(&self) -> u32 {
        self.run.port()
    }

    fn turn(&self) -> u64 {
        self.run.turn()
    }

    fn last_turn(&self) -> u64 {
        self.run.last_turn()
    }

    fn step(&mut self) -> Step {
        self.run.step(self.bar)
    }

    ghost reflexive = { λ a. record { bar = refl; port = refl; image = refl; lanes = refl; last_turn = refl } };

    ghost transitive = { λ a b c x y. record { bar = y.bar ∙ x.bar; port = y.port ∙ x.port; image = y.image ∙ x.image; lanes = y.lanes ∙ x.lanes; last_turn = y.last_turn ∙ x.last_turn } };
}
