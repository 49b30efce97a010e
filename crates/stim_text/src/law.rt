//! What holds of each stimulus that a text reads as. The functions do nothing: their clauses are the
//! laws.

ghost use Rattle.std.specs.Prelude.{◌≡◌, ◌⊎◌, List as Items, ℕ, Some, None};
ghost use Rattle.net_defs.specs.{declared.stimulus.Stimulus.Stimulus, Valid.IsValidStimulus};
ghost use Rattle.text_lines.specs.Answers.{IsReader};
ghost use Rattle.stim_text.specs.{declared.refusal.StimNo.StimNo, Stimuli.Reads, Stimuli.first_fault};

/// Each text reads as one stimulus at most for so many inputs, and has no fault beside it.
pub fn reads_as_one()
    ensures one { (inputs : ℕ) (text : Items ℕ) (stimulus other : Stimulus)
        → Reads inputs text stimulus → Reads inputs text other → stimulus ≡ other }
    ensures no_fault { (inputs : ℕ) (text : Items ℕ) (stimulus : Stimulus)
        → Reads inputs text stimulus → first_fault inputs text ≡ None }
{}

/// What a text reads as is a valid stimulus.
pub fn reads_as_valid()
    ensures { (inputs : ℕ) (text : Items ℕ) (stimulus : Stimulus) → Reads inputs text stimulus → IsValidStimulus stimulus }
{}

/// Each text, of any length, reads as a stimulus for so many inputs or has a first fault. With the
/// law above, the texts have a reader.
pub fn reads_or_faults()
    ensures some { (inputs : ℕ) (text : Items ℕ)
        → ((stimulus : Stimulus) × Reads inputs text stimulus) ⊎ ((why : StimNo) × (first_fault inputs text ≡ Some why)) }
    ensures reader { (inputs : ℕ) → IsReader (Reads inputs) (first_fault inputs) }
{}
