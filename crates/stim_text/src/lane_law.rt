//! What holds of the lanes that a text reads as, and of the stimuli that lanes run. The functions do
//! nothing: their clauses are the laws.

ghost use Rattle.std.specs.Prelude.{◌≡◌, ◌⊎◌, ◌*◌, List as Items, ℕ, Some, None};
ghost use Rattle.net_defs.specs.{declared.timing.Timing.Timing, Time.cycle_count, Time.turn_count, Time.input_at, Valid.IsValidStimulus};
ghost use Rattle.text_lines.specs.Answers.{IsReader};
ghost use Rattle.stim_text.specs.Lanes.{AreLanes, longest, lane_stimulus, own_stimulus};
ghost use Rattle.stim_text.specs.{declared.lanes.Lanes.Lanes, declared.refusal.LaneNo.LaneNo, LaneTexts.ReadsAsLanes, LaneTexts.first_lanes_fault};

/// Each text reads as lanes in one way at most for so many inputs, and has no fault beside that.
pub fn reads_as_one()
    ensures one { (inputs : ℕ) (text : Items ℕ) (lanes other : Lanes)
        → ReadsAsLanes inputs text lanes → ReadsAsLanes inputs text other → lanes ≡ other }
    ensures no_fault { (inputs : ℕ) (text : Items ℕ) (lanes : Lanes)
        → ReadsAsLanes inputs text lanes → first_lanes_fault inputs text ≡ None }
{}

/// What a text reads as is lanes: at most `LANES`, each with a valid stimulus.
pub fn reads_as_lanes()
    ensures { (inputs : ℕ) (text : Items ℕ) (lanes : Lanes) → ReadsAsLanes inputs text lanes → AreLanes inputs lanes }
{}

/// Each text, of any length, reads as lanes for so many inputs or has a first fault. With the law
/// above, the texts have a reader.
pub fn reads_or_faults()
    ensures some { (inputs : ℕ) (text : Items ℕ)
        → ((lanes : Lanes) × ReadsAsLanes inputs text lanes) ⊎ ((why : LaneNo) × (first_lanes_fault inputs text ≡ Some why)) }
    ensures reader { (inputs : ℕ) → IsReader (ReadsAsLanes inputs) (first_lanes_fault inputs) }
{}

/// As all lanes run, each has a valid stimulus with the cycles of the longest lane, and so the same
/// turns, and each of its inputs has at every turn what the lane's own stimulus gives it.
pub fn runs_with_all()
    ensures valid { (columns : ℕ) (lanes : Lanes) (l : ℕ) → AreLanes columns lanes → IsValidStimulus (lane_stimulus columns lanes l) }
    ensures columns { (columns : ℕ) (lanes : Lanes) (l : ℕ) → AreLanes columns lanes → (lane_stimulus columns lanes l).columns ≡ columns }
    ensures cycles { (columns : ℕ) (lanes : Lanes) (l : ℕ) → cycle_count (lane_stimulus columns lanes l) ≡ longest lanes }
    ensures turns { (columns : ℕ) (lanes : Lanes) (l : ℕ) (timing : Timing)
        → turn_count timing (lane_stimulus columns lanes l) ≡ timing.units * longest lanes }
    ensures inputs { (columns : ℕ) (lanes : Lanes) (l : ℕ) (timing : Timing) (turn column : ℕ)
        → input_at timing (lane_stimulus columns lanes l) turn column ≡ input_at timing (own_stimulus columns lanes l) turn column }
{}
