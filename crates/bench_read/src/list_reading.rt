//! The reader of the texts of lists of gates.

ghost use Rattle.std.specs.Prelude.{◌≡◌, ◌≤◌, List as Items, [], ℕ, None, MatchResult, IfOk, OnOk, length, map};
ghost use Rattle.limits.specs.declared.TheConstants.{MAX_SIGNALS, MAX_TEXT_BYTES};
ghost use Rattle.text_lines.specs.{Answers.Answers, Lines.parts_of};
ghost use Rattle.net_defs.specs.Valid.{Ascends, IsValid, NamesDiffer};
ghost use Rattle.bench_read.specs.GateLists.{Reads, first_fault, gates_of, names_in};
ghost use Rattle.bench_read.specs.{declared.refusal.LastNo.TheVariants.Memory as NoMemory, code.GateLists.AreMarks, code.GateLists.marked};

use crate::list_line::read_line;
use crate::names::Names;
use crate::refusal::LastNo;
use net_defs::{Netlist, Signal};
use seen_list::{List, Memory};
use std::alloc::Global;
use text_lines::Lines;

/// The numbers of the gates of the netlist that the text names, in ascending order, or the text's
/// first fault. Of a line's faults the first of these is told: another form, no gate, a name that an
/// earlier line has.
pub fn read_last(alloc: Global, bytes: &[u8], net: &Netlist) -> Result<List<u32>, LastNo>
    requires short { length bytes.now ≤ MAX_TEXT_BYTES }
    requires net { IsValid net.now }

    // What is read is what the text reads as, a refusal is the first fault, or memory ran out.
    ensures answers { Answers NoMemory result (first_fault net.now bytes.now) (Reads net.now bytes.now) }

    // What is read ascends.
    ensures ascends { IfOk result Ascends }

    // What the text reads as is read, unless memory ran out, and has no fault.
    ensures only { (listed : Items ℕ) → Reads net.now bytes.now listed
        → (first_fault net.now bytes.now ≡ None) × MatchResult result (λ read. read ≡ listed) (λ e. e ≡ NoMemory) }
{
    let marks = read_marks(alloc, bytes, net)?;
    let listed = marked(alloc, marks.as_slice())?;
    Ok(listed)
}

/// The marks of the gates that the text names, or the fault of its first line that has one.
fn read_marks(alloc: Global, bytes: &[u8], net: &Netlist) -> Result<List<bool>, LastNo>
    requires short { length bytes.now ≤ MAX_TEXT_BYTES }
    requires net { IsValid net.now }
    ensures { Answers NoMemory result (first_fault net.now bytes.now)
        (AreMarks net.now (gates_of net.now (parts_of bytes.now))) }
{
    let mut marks = List::filled(alloc, false, net.signals.len())?;
    let names = signal_names(alloc, net)?;
    mark_lines(bytes, net, &names, &mut marks)?;
    Ok(marks)
}

/// Marks the gates that the text names, or answers the fault of its first line that has one.
fn mark_lines(
    bytes: &[u8],
    net: &Netlist,
    names: &Names,
    marks: &mut List<bool>,
) -> Result<(), LastNo>
    requires short { length bytes.now ≤ MAX_TEXT_BYTES }
    requires net { IsValid net.now }
    requires names { names.now ≡ names_in net.now }
    requires unmarked { AreMarks net.now [] marks.old }
    ensures { Answers NoMemory result (first_fault net.now bytes.now)
        (λ _. AreMarks net.now (gates_of net.now (parts_of bytes.now)) marks.new) }
{
    for (line, part) in Lines::new(bytes) {
        if let Some(gate) = read_line(net, names, marks.as_slice(), line, part)? {
            marks.set(gate as usize, true);
        }
    }
    Ok(())
}

/// The names of the signals, in signal order.
pub(crate) fn signal_names(alloc: Global, net: &Netlist) -> Result<Names<'_>, Memory>
    requires { NamesDiffer net.now.signals }
    ensures { IfOk result (λ names. names ≡ names_in net.now) }
{
    let mut names = Names::new(alloc);
    add_names(net.signals.as_slice(), &mut names)?;
    Ok(names)
}

/// Adds the names of the signals, in signal order, to no names.
fn add_names<'a>(signals: &'a [Signal], names: &mut Names<'a>) -> Result<(), Memory>
    requires differ { NamesDiffer signals.now }
    requires none { names.old ≡ [] }
    ensures { OnOk result (names.new ≡ map (λ signal. signal.name) signals.now) }
{
    for signal in signals {
        names.add(signal.name.as_bytes())?;
    }
    Ok(())
}

/// The places whose marks are set, in order.
fn marked(alloc: Global, marks: &[bool]) -> Result<List<u32>, Memory>
    requires { length marks.now ≤ MAX_SIGNALS }
    ensures { IfOk result (λ places. places ≡ marked marks.now) }
{
    let mut places = List::new(alloc);
    for (place, is_marked) in marks.iter().enumerate() {
        if *is_marked {
            places.push(place as u32)?;
        }
    }
    Ok(places)
}
