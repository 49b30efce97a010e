//! What holds of each machine that a text reads as. The functions do nothing: their clauses are the
//! laws.

ghost use Rattle.std.specs.Prelude.{◌≡◌, ◌⊎◌, List as Items, ℕ, Some, None};
ghost use Rattle.text_lines.specs.Answers.{IsReader};
ghost use Rattle.machine_text.specs.Machines.{IsValid, Reads, behind_version_two, first_fault};
ghost use Rattle.machine_text.specs.declared.{machine.Machine.Machine, machine.MachNo.MachNo, quantity.Version.TheVariants.One};
ghost use Rattle.machine_text.specs.Settings.{version_of};

/// Each text reads as one machine at most, and has no fault beside it.
pub fn reads_as_one()
    ensures one { (text : Items ℕ) (machine other : Machine) → Reads text machine → Reads text other → machine ≡ other }
    ensures no_fault { (text : Items ℕ) (machine : Machine) → Reads text machine → first_fault text ≡ None }
{}

/// What a text reads as is a valid machine.
pub fn reads_as_valid()
    ensures { (text : Items ℕ) (machine : Machine) → Reads text machine → IsValid machine }
{}

/// Each text, of any length, reads as a machine or has a first fault. With the laws above, the texts
/// have a reader.
pub fn reads_or_faults()
    ensures some { (text : Items ℕ) → ((machine : Machine) × Reads text machine) ⊎ ((why : MachNo) × (first_fault text ≡ Some why)) }
    ensures reader { IsReader Reads first_fault }
{}

/// A text of version 1 reads as the same machine behind the line `version 2`.
pub fn reads_behind_version_two()
    ensures { (text : Items ℕ) (machine : Machine) → version_of text ≡ One → Reads text machine → Reads (behind_version_two text) machine }
{}
