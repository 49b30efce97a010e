//! What holds of the netlist grammar, and of each netlist that a text reads as. The functions do nothing:
//! their clauses are the laws.

ghost use Rattle.std.specs.Prelude.{◌≡◌, ◌≤◌, ◌⊎◌, ◌↔◌, List as Items, ℕ, Some, None, Ok, length};
ghost use Rattle.limits.specs.declared.TheConstants.{MAX_TEXT_BYTES};
ghost use Rattle.net_defs.specs.{declared.netlist.Netlist.Netlist, Canonical.canonical_text, Valid.IsValid};
ghost use Rattle.text_lines.specs.Answers.{IsReader};
ghost use Rattle.bench_text.specs.Rows.{Row};
ghost use Rattle.bench_read.specs.{declared.refusal.BenchNo.BenchNo, Faults.first_fault, Lines.Line, Reads.Reads, Saying.Says, Saying.said};
ghost use Rattle.bench_read.specs.Written.{lines_of, text_of_lines};

use net_defs::Netlist;

/// A row says one line at most.
pub fn one_line()
    ensures { (row : Row) (line other : Line) → Says row line → Says row other → line ≡ other }
{}

/// What a row says by the decoder is the line that it says.
pub fn lines_are_said()
    ensures { (row : Row) (line : Line) → said row ≡ Ok line ↔ Says row line }
{}

/// The canonical text is the spelling of the netlist's lines, with spaces.
pub fn canonical_is_spelled()
    ensures { (net : Netlist) → canonical_text net ≡ text_of_lines (lines_of net) }
{}

/// Each text reads as one netlist at most, and has no fault beside it.
pub fn reads_as_one()
    ensures one { (text : Items ℕ) (net other : Netlist) → Reads text net → Reads text other → net ≡ other }
    ensures no_fault { (text : Items ℕ) (net : Netlist) → Reads text net → first_fault text ≡ None }
{}

/// Each text, of any length, reads as a netlist or has a first fault. With the first law, the texts
/// have a reader.
pub fn reads_or_faults()
    ensures some { (text : Items ℕ) → ((net : Netlist) × Reads text net) ⊎ ((why : BenchNo) × (first_fault text ≡ Some why)) }
    ensures reader { IsReader Reads first_fault }
{}

/// What a text reads as is a valid netlist.
pub fn reads_as_valid(text: &[u8], net: &Netlist)
    requires { length text.now ≤ MAX_TEXT_BYTES }
    ensures { Reads text.now net.now → IsValid net.now }
{}

/// The same of all texts.
pub fn texts_read_as_valid()
    ensures { (text : Items ℕ) (net : Netlist) → length text ≤ MAX_TEXT_BYTES → Reads text net → IsValid net }
{}

/// The canonical text of a valid netlist reads as that netlist.
pub fn canonical_reads(net: &Netlist)
    requires { IsValid net.now }
    ensures { Reads (canonical_text net.now) net.now }
{}
