//! What holds of each list of gates that a text reads as. The functions do nothing: their clauses are
//! the laws.

ghost use Rattle.std.specs.Prelude.{◌≡◌, ◌⊎◌, List as Items, ℕ, Some, None};
ghost use Rattle.text_lines.specs.Answers.{IsReader};
ghost use Rattle.net_defs.specs.{declared.netlist.Netlist.Netlist, Valid.Ascends};
ghost use Rattle.bench_read.specs.{declared.refusal.LastNo.LastNo, GateLists.Reads, GateLists.first_fault};

/// Each text reads as one list of gates of a netlist at most, and has no fault beside it.
pub fn reads_as_one()
    ensures one { (net : Netlist) (text listed other : Items ℕ) → Reads net text listed → Reads net text other → listed ≡ other }
    ensures no_fault { (net : Netlist) (text listed : Items ℕ) → Reads net text listed → first_fault net text ≡ None }
{}

/// What a text reads as ascends.
pub fn reads_as_ascending()
    ensures { (net : Netlist) (text listed : Items ℕ) → Reads net text listed → Ascends listed }
{}

/// Each text, of any length, reads as a list of gates of a netlist or has a first fault. With the law
/// above, the texts have a reader.
pub fn reads_or_faults()
    ensures some { (net : Netlist) (text : Items ℕ)
        → ((listed : Items ℕ) × Reads net text listed) ⊎ ((why : LastNo) × (first_fault net text ≡ Some why)) }
    ensures reader { (net : Netlist) → IsReader (Reads net) (first_fault net) }
{}
