//! One line of the text of a list of gates.

ghost use Rattle.std.specs.Prelude.{◌≡◌, ◌≤◌, List as Items, ℕ, length, IfOk, IfSome};
ghost use Rattle.std.specs.List.{list_all};
ghost use Rattle.limits.specs.declared.TheConstants.{MAX_SIGNALS};
ghost use Rattle.text_lines.specs.{code.Answers.fault_or, Names.is_name_byte};
ghost use Rattle.net_defs.specs.Valid.{IsSignal};
ghost use Rattle.bench_read.specs.GateLists.{fault_of, gate_of, gate_named, is_name, names_in};
ghost use Rattle.bench_read.specs.code.GateLists.{AreMarks};

use crate::names::Names;
use crate::refusal::LastNo;
use limits::MAX_NAME_BYTES;
use net_defs::{Netlist, is_gate};
use text_lines::Words;
use text_lines::names::is_name_byte;

/// Reads the part of a line outside its comment, after lines that named the gates whose marks are
/// set: the gate that it names, or `None` where it is blank, or its fault.
#[tactic(auto, unfolding(crate::specs::GateLists::fault_of, crate::specs::GateLists::gate_of))]
pub fn read_line(
    net: &Netlist,
    names: &Names,
    marks: &[bool],
    line: u32,
    part: &[u8],
) -> Result<Option<u32>, LastNo>
    requires few { length net.now.signals ≤ MAX_SIGNALS }
    requires names { names.now ≡ names_in net.now }
    requires marks { length marks.now ≡ length net.now.signals }
    ensures answers { (named : Items ℕ) → AreMarks net.now named marks.now
        → result ≡ fault_or (fault_of net.now named line part.now) (gate_of net.now part.now) }
    ensures within { IfOk result (λ read. IfSome read (IsSignal net.now)) }
{
    let mut words = Words::new(part);
    let Some(word) = words.next() else {
        return Ok(None);
    };
    if words.next().is_some() || !is_name(word) {
        return Err(LastNo::Syntax { line });
    }
    match gate_named(net, names, word) {
        None => Err(LastNo::NoGate { line }),
        Some(gate) if marks[gate as usize] => Err(LastNo::Twice { line }),
        Some(gate) => Ok(Some(gate)),
    }
}

/// Whether the word is a name: 1 to 255 bytes that may stand in one.
#[tactic(auto, unfolding(crate::specs::GateLists::is_name))]
pub(crate) fn is_name(word: &[u8]) -> bool
    ensures { result ≡ is_name word.now }
{
    1 <= word.len() && word.len() <= MAX_NAME_BYTES && has_name_bytes(word)
}

/// Whether each byte may stand in a name.
fn has_name_bytes(word: &[u8]) -> bool
    ensures { result ≡ list_all is_name_byte word.now }
{
    word.iter().all(|byte| is_name_byte(*byte))
}

/// The number of the signal of this name, if a gate drives it.
#[tactic(auto, unfolding(crate::specs::GateLists::gate_named))]
fn gate_named(net: &Netlist, names: &Names, name: &[u8]) -> Option<u32>
    requires few { length net.now.signals ≤ MAX_SIGNALS }
    requires names { names.now ≡ names_in net.now }
    ensures named { result ≡ gate_named net.now name.now }
    ensures within { IfSome result (IsSignal net.now) }
{
    match names.find(name) {
        Some(signal) if is_gate(net, signal as u32) => Some(signal as u32),
        _ => None,
    }
}
