//! What holds of each list of stuck faults that a text reads as. The functions do nothing: their clauses
//! are the laws.

ghost use Rattle.std.specs.Prelude.{◌≡◌, ◌⊎◌, List as Items, ℕ, Some, None, All};
ghost use Rattle.text_lines.specs.Answers.{IsReader};
ghost use Rattle.net_defs.specs.{declared.faults.Fault.Fault, declared.netlist.Netlist.Netlist, Valid.IsFault};
ghost use Rattle.bench_read.specs.{declared.refusal.FaultNo.FaultNo, StuckLists.Reads, StuckLists.first_fault};

/// Each text reads as one list of stuck faults of a netlist at most, and has no fault beside it.
pub fn reads_as_one()
    ensures one { (net : Netlist) (text : Items ℕ) (faults other : Items Fault) → Reads net text faults → Reads net text other → faults ≡ other }
    ensures no_fault { (net : Netlist) (text : Items ℕ) (faults : Items Fault) → Reads net text faults → first_fault net text ≡ None }
{}

/// What a text reads as are stuck faults of the netlist.
pub fn reads_as_faults()
    ensures { (net : Netlist) (text : Items ℕ) (faults : Items Fault) → Reads net text faults → All (IsFault net) faults }
{}

/// Each text, of any length, reads as a list of stuck faults of a netlist or has a first fault. With the
/// law above, the texts have a reader.
pub fn reads_or_faults()
    ensures some { (net : Netlist) (text : Items ℕ)
        → ((faults : Items Fault) × Reads net text faults) ⊎ ((why : FaultNo) × (first_fault net text ≡ Some why)) }
    ensures reader { (net : Netlist) → IsReader (Reads net) (first_fault net) }
{}
