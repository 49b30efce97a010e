//! Stimuli.

ghost use Rattle.std.specs.Prelude.{◌≡◌};
ghost use Rattle.net_defs.specs.{Time.cycle_count, Valid.IsValidStimulus};

use logic_four::V4;
use seen_list::List;

/// A row of a stimulus: one value for each input in signal order, for `times` cycles, 1 to 1,000,000.
#[derive(Drop)]
pub struct StimRow {
    pub values: List<V4>,
    pub times: u32,
}

/// The rows of a stimulus in order, for so many inputs. The cycles are at most 1,000,000.
#[derive(Drop)]
pub struct Stimulus {
    pub columns: u32,
    pub rows: List<StimRow>,
}

impl Stimulus {
    /// The number of cycles: the sum of the repeats.
    pub fn cycles(&self) -> u32
        requires { IsValidStimulus self.now }
        ensures { result ≡ cycle_count self.now }
    {
        let mut cycles = 0;
        for row in self.rows.as_slice() {
            cycles += row.times;
        }
        cycles
    }
}
