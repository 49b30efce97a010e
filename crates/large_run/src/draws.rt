//! The generator.

ghost use Rattle.std.specs.Prelude.{◌≡◌, ◌<◌};
ghost use Rattle.large_run.specs.Draws.{next_state};

/// A multiplicative congruential generator with multiplier 171 and modulus 30,269, one of the three
/// of Wichmann and Hill (1982).
#[derive(Drop)]
pub(crate) struct Draws {
    pub(crate) state: u32,
}

impl Draws {
    /// The next draw, which is the next state.
    pub(crate) fn draw(&mut self) -> u32
        requires { self.old.state < 30269 }
        ensures drawn { result ≡ next_state self.old.state }
        ensures state { self.new.state ≡ next_state self.old.state }
        ensures below { result < 30269 }
    {
        self.state = 171 * self.state % 30_269;
        self.state
    }

    /// The state after all draws so far, from which others go on.
    pub(crate) fn reached(&self) -> u32
        ensures { result ≡ self.now.state }
    {
        let Draws { state } = self;
        *state
    }
}
