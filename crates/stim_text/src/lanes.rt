//! Lanes: stimuli that run at once.

ghost use Rattle.std.specs.Prelude.{◌≡◌, ℕ, Some, slice_get};
ghost use Rattle.net_defs.specs.{declared.stimulus.Stimulus.Stimulus, Valid.IsValidStimulus};
ghost use Rattle.stim_text.specs.Lanes.{longest};

use net_defs::Stimulus;
use seen_list::List;

/// The stimuli of so many lanes, at most `LANES` of them, counted from 0. All have the same columns.
#[derive(Drop)]
pub struct Lanes {
    pub lanes: List<Stimulus>,
}

impl Lanes {
    /// The number of cycles of the longest lane, and 0 where there are no lanes.
    pub fn cycles(&self) -> u32
        requires { (l : ℕ) (stimulus : Stimulus) → slice_get self.now.lanes l ≡ Some stimulus → IsValidStimulus stimulus }
        ensures { result ≡ longest self.now }
    {
        let mut most = 0;
        for stimulus in self.lanes.as_slice() {
            most = stimulus.cycles().max(most);
        }
        most
    }
}
