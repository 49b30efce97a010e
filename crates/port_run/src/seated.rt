//! A running port beside its crossbar.

ghost use Rattle.slot_words.specs.plain.Passes.{IsOf};

use crate::running::Running;
use crew_run::{Step, Stepper};
use slot_words::Crossbar;

/// A running port with the crossbar that gave its pass: a member of a crew. Its turns are those of the
/// image up to the last one of its block, its steps those of the pass, and its events the core's.
#[derive(Drop)]
pub struct Seated<'a> {
    pub bar: &'a Crossbar,
    pub run: Running<'a>,
    ghost own: { IsOf bar.now run.pass },
}

/// A port waits for others at nearly every slot of a random netlist: a thread pays where its worker has some sixteen.
const FEW_MEMBERS: usize = 3;

impl<'a> Stepper for Seated<'a> {
    ghost use Rattle.std.specs.Prelude.{refl};
    ghost use Rattle.std.proofs.Common.{◌∙◌};
    ghost use Rattle.port_run.specs.{Same.IsSame, Same.Takes, Steps.IsShort};

    ghost same = { λ a b. IsSame a.bar.now a.run b.bar.now b.run };

    ghost port = { λ a. a.run.pass.port };

    ghost turn = { λ a. a.run.pass.place.turn };

    ghost last_turn = { λ a. a.run.until };

    ghost steps = { λ a. a.run.pass.steps };

    ghost short = { λ a. IsShort a.run.until a.run.pass };

    ghost takes = { λ a tells b. Takes a.run tells b.run };

    fn few_members() -> usize {
        FEW_MEMBERS
    }

    fn port(&self) -> u32 {
        self.run.port()
    }

    fn turn(&self) -> u64 {
        self.run.turn()
    }

    fn last_turn(&self) -> u64 {
        self.run.until()
    }

    fn step(&mut self) -> Step {
        self.run.step(self.bar)
    }

    ghost reflexive = { λ a. record { bar = refl; port = refl; image = refl; stimulus = refl; window = refl; first_row = refl; until = refl } };

    ghost transitive = { λ a b c x y. record { bar = y.bar ∙ x.bar; port = y.port ∙ x.port; image = y.image ∙ x.image; stimulus = y.stimulus ∙ x.stimulus; window = y.window ∙ x.window; first_row = y.first_row ∙ x.first_row; until = y.until ∙ x.until } };
}
