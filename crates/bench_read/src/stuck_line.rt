//! One line of the text of a list of stuck faults.

ghost use Rattle.std.specs.Prelude.{◌≡◌, ◌⊎◌, ◌+◌, ◌≤◌, ◌<◌, List as Items, Some, length, IfOk, IfSome};
ghost use Rattle.limits.specs.declared.TheConstants.{MAX_SIGNALS};
ghost use Rattle.logic_four.specs.declared.V4.TheVariants.{Zero, One};
ghost use Rattle.text_lines.specs.code.Answers.{fault_or};
ghost use Rattle.net_defs.specs.{declared.faults.Fault.Fault as StuckFault, Valid.IsFault, Valid.IsSignal};
ghost use Rattle.bench_read.specs.StuckLists.{fault_of, number_of, signal_named, stuck_at, stuck_of, value_after, value_in, value_of};
ghost use Rattle.bench_read.specs.{GateLists.names_in, code.StuckLists.AreStuckMarks};

use crate::list_line::is_name;
use crate::names::Names;
use crate::refusal::FaultNo;
use logic_four::V4;
use net_defs::{Fault, Netlist};
use text_lines::Words;

/// Reads the part of a line outside its comment, after lines that named the stuck faults whose marks are
/// set: the one that it names, or `None` where it is blank, or its fault.
#[tactic(auto, unfolding(crate::specs::StuckLists::fault_of, crate::specs::StuckLists::stuck_of))]
pub fn read_line(
    net: &Netlist,
    names: &Names,
    marks: &[bool],
    line: u32,
    part: &[u8],
) -> Result<Option<Fault>, FaultNo>
    requires few { length net.now.signals ≤ MAX_SIGNALS }
    requires names { names.now ≡ names_in net.now }
    requires marks { length marks.now ≡ length net.now.signals + length net.now.signals }
    ensures answers { (named : Items StuckFault) → AreStuckMarks net.now named marks.now
        → result ≡ fault_or (fault_of net.now named line part.now) (stuck_of net.now part.now) }
    ensures faults { IfOk result (λ read. IfSome read (IsFault net.now)) }
{
    let mut words = Words::new(part);
    let Some(name) = words.next() else {
        return Ok(None);
    };
    let Some(value) = value_after(name, &mut words) else {
        return Err(FaultNo::Syntax { line });
    };
    match stuck_at(net, names, name, value) {
        None => Err(FaultNo::NoSignal { line }),
        Some(stuck) if marks[number_of(stuck)] => Err(FaultNo::Twice { line }),
        Some(stuck) => Ok(Some(stuck)),
    }
}

/// The value of a line whose words are a name and these.
#[tactic(auto, unfolding(crate::specs::StuckLists::value_after))]
fn value_after(name: &[u8], words: &mut Words) -> Option<V4>
    ensures value { result ≡ value_after name.now words.old }
    ensures known { IfSome result (λ value. (value ≡ Zero) ⊎ (value ≡ One)) }
{
    if is_name(name) { value_in(words) } else { None }
}

/// The value of the words after a name.
fn value_in(words: &mut Words) -> Option<V4>
    ensures value { result ≡ value_in words.old }
    ensures known { IfSome result (λ value. (value ≡ Zero) ⊎ (value ≡ One)) }
{
    let value = words.next()?;
    match words.next() {
        None => value_of(value),
        Some(mark) if mark == b"-".as_slice() && words.next().is_none() => value_of(value),
        Some(_) => None,
    }
}

/// The value that a word is: `0` or `1`.
#[tactic(auto, unfolding(crate::specs::StuckLists::value_of))]
fn value_of(word: &[u8]) -> Option<V4>
    ensures value { result ≡ value_of word.now }
    ensures known { IfSome result (λ value. (value ≡ Zero) ⊎ (value ≡ One)) }
{
    if word == b"0".as_slice() {
        Some(V4::Zero)
    } else if word == b"1".as_slice() {
        Some(V4::One)
    } else {
        None
    }
}

/// The signal of this name, stuck at the value.
#[tactic(auto, unfolding(crate::specs::StuckLists::signal_named))]
fn stuck_at(net: &Netlist, names: &Names, name: &[u8], value: V4) -> Option<Fault>
    requires few { length net.now.signals ≤ MAX_SIGNALS }
    requires names { names.now ≡ names_in net.now }
    ensures stuck { result ≡ stuck_at (signal_named net.now name.now) (Some value) }
    ensures within { IfSome result (λ stuck. IsSignal net.now stuck.signal) }
{
    match names.find(name) {
        Some(signal) => Some(Fault {
            signal: signal as u32,
            value,
        }),
        None => None,
    }
}

/// The number of a stuck fault among all of a netlist.
pub(crate) fn number_of(stuck: Fault) -> usize
    requires { stuck.signal < MAX_SIGNALS }
    ensures { result ≡ number_of stuck }
{
    2 * stuck.signal as usize + if stuck.value == V4::One { 1 } else { 0 }
}
