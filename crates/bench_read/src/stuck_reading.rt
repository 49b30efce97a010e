//! The reader of the texts of lists of stuck faults.

ghost use Rattle.std.specs.Prelude.{◌≡◌, ◌≤◌, List as Items, None, MatchResult, IfOk, All, length};
ghost use Rattle.limits.specs.declared.TheConstants.{MAX_TEXT_BYTES};
ghost use Rattle.text_lines.specs.{Answers.Answers, Lines.parts_of};
ghost use Rattle.net_defs.specs.{declared.faults.Fault.Fault as StuckFault, Valid.IsFault, Valid.IsValid};
ghost use Rattle.bench_read.specs.{declared.refusal.FaultNo.TheVariants.Memory as NoMemory, GateLists.names_in};
ghost use Rattle.bench_read.specs.StuckLists.{Reads, first_fault, stuck_in};

use crate::list_reading::signal_names;
use crate::names::Names;
use crate::refusal::FaultNo;
use crate::stuck_line::{number_of, read_line};
use net_defs::{Fault, Netlist};
use seen_list::List;
use std::alloc::Global;
use text_lines::Lines;

/// The stuck faults of the netlist that the text names, in the order of its lines, or the text's first
/// fault. Of a line's faults the first of these is told: another form, no signal, a stuck fault that an
/// earlier line has.
pub fn read_faults(alloc: Global, bytes: &[u8], net: &Netlist) -> Result<List<Fault>, FaultNo>
    requires short { length bytes.now ≤ MAX_TEXT_BYTES }
    requires net { IsValid net.now }

    // What is read is what the text reads as, a refusal is the first fault, or memory ran out.
    ensures answers { Answers NoMemory result (first_fault net.now bytes.now) (Reads net.now bytes.now) }

    // What is read are stuck faults of the netlist.
    ensures stuck { IfOk result (All (IsFault net.now)) }

    // What the text reads as is read, unless memory ran out, and has no fault.
    ensures only { (faults : Items StuckFault) → Reads net.now bytes.now faults
        → (first_fault net.now bytes.now ≡ None) × MatchResult result (λ read. read ≡ faults) (λ e. e ≡ NoMemory) }
{
    let names = signal_names(alloc, net)?;
    read_lines(alloc, bytes, net, &names)
}

/// The stuck faults that the lines name, or the fault of the first line that has one.
fn read_lines(
    alloc: Global,
    bytes: &[u8],
    net: &Netlist,
    names: &Names,
) -> Result<List<Fault>, FaultNo>
    requires short { length bytes.now ≤ MAX_TEXT_BYTES }
    requires net { IsValid net.now }
    requires names { names.now ≡ names_in net.now }
    ensures { Answers NoMemory result (first_fault net.now bytes.now)
        (λ faults. faults ≡ stuck_in net.now (parts_of bytes.now)) }
{
    let mut marks = List::filled(alloc, false, 2 * net.signals.len())?;
    let mut faults = List::new(alloc);
    for (line, part) in Lines::new(bytes) {
        if let Some(stuck) = read_line(net, names, marks.as_slice(), line, part)? {
            marks.set(number_of(stuck), true);
            faults.push(stuck)?;
        }
    }
    Ok(faults)
}
