//! The lines of the verdicts on stuck faults of a netlist: for each fault the name of its signal, the digit at
//! which it is stuck, and the cycle and the printed name where it is first seen, or `-`; and a last line on how
//! many are seen.

ghost use Rattle.std.specs.Prelude.{◌≡◌, ◌∷◌, [], ◌++◌, IfOk, OnOk, count_by, decimal, length, map};
ghost use Rattle.std.specs.List.{zip};
ghost use Rattle.net_defs.specs.Canonical.{name_of};
ghost use Rattle.fault_sim.specs.Lines.{column_name, detected_line, fault_lines, is_detected, place_words, stuck_digit, verdict_line};

use crate::{Fault, Verdict};
use logic_four::V4;
use net_defs::{Netlist, name_of};
use seen_list::{List, Memory, Text};
use std::alloc::Global;

/// The lines of the verdicts on these faults, and the last line.
pub fn fault_lines(
    alloc: Global,
    net: &Netlist,
    faults: &[Fault],
    verdicts: &[Verdict],
) -> Result<List<Text>, Memory>
    requires count { length verdicts.now ≡ length faults.now }
    ensures { IfOk result (λ lines. lines ≡ fault_lines net.now faults.now verdicts.now) }
{
    let mut lines = verdict_lines(alloc, net, faults, verdicts)?;
    lines.push(detected_line(alloc, detected(verdicts), verdicts.len())?)?;
    Ok(lines)
}

/// The lines of the verdicts.
fn verdict_lines(
    alloc: Global,
    net: &Netlist,
    faults: &[Fault],
    verdicts: &[Verdict],
) -> Result<List<Text>, Memory>
    requires count { length verdicts.now ≡ length faults.now }
    ensures { IfOk result (λ lines. lines ≡ map (λ p. verdict_line net.now p.0 p.1) (zip faults.now verdicts.now)) }
{
    let mut lines = List::new(alloc);
    'verdicts: for k in 0..verdicts.len() {
        lines.push(verdict_line(alloc, net, faults[k], verdicts[k])?)?;
    }
    Ok(lines)
}

/// The line of the verdict on a fault.
#[tactic(auto, unfolding(crate::specs::Lines::verdict_line))]
fn verdict_line(
    alloc: Global,
    net: &Netlist,
    fault: Fault,
    verdict: Verdict,
) -> Result<Text, Memory>
    ensures { IfOk result (λ line. line ≡ verdict_line net.now fault verdict) }
{
    let mut line = Text::new(alloc);
    line.push_bytes(signal_name(net, fault.signal as usize))?;
    line.push_bytes(b" ")?;
    line.push_bytes(stuck_digit(fault.value))?;
    line.push_bytes(b" ")?;
    push_place(&mut line, net, verdict)?;
    line.push_bytes(b"\n")?;
    Ok(line)
}

/// The name of a signal, given by its number.
fn signal_name(net: &Netlist, signal: usize) -> &[u8]
    ensures { result.now ≡ name_of net.now signal }
{
    match net.signals.get(signal) {
        Some(signal) => signal.name.as_bytes(),
        None => b"",
    }
}

fn stuck_digit(value: V4) -> &'static [u8]
    ensures { result.now ≡ stuck_digit value }
{
    match value {
        V4::One => b"1",
        V4::Zero | V4::Undef | V4::HighZ => b"0",
    }
}

/// Adds where a fault is first seen.
fn push_place(line: &mut Text, net: &Netlist, verdict: Verdict) -> Result<(), Memory>
    ensures { OnOk result (line.new ≡ line.old ++ place_words net.now verdict) }
{
    match verdict {
        Verdict::Seen { cycle, column } => push_seen(line, net, cycle, column),
        Verdict::Unseen => {
            line.push_bytes(b"-")?;
            Ok(())
        }
    }
}

fn push_seen(line: &mut Text, net: &Netlist, cycle: u32, column: u32) -> Result<(), Memory>
    ensures { OnOk result (line.new ≡ line.old ++ place_words net.now (Verdict.Seen cycle column)) }
{
    line.push_decimal(cycle as u64)?;
    line.push_bytes(b" ")?;
    line.push_bytes(column_name(net, column))?;
    Ok(())
}

/// The printed name of a column, counted from 0.
fn column_name(net: &Netlist, column: u32) -> &[u8]
    ensures { result.now ≡ column_name net.now column }
{
    match net.printed.get(column as usize) {
        Some(signal) => name_of(net, *signal),
        None => b"",
    }
}

/// How many faults are seen.
fn detected(verdicts: &[Verdict]) -> usize
    ensures { result ≡ count_by is_detected verdicts.now }
{
    verdicts
        .iter()
        .filter(|verdict| is_detected(verdict))
        .count()
}

pub(crate) fn is_detected(verdict: &Verdict) -> bool
    ensures { result ≡ is_detected verdict.now }
{
    matches!(verdict, Verdict::Seen { .. })
}

/// The last line.
#[tactic(auto, unfolding(crate::specs::Lines::detected_line))]
fn detected_line(alloc: Global, seen: usize, all: usize) -> Result<Text, Memory>
    ensures { IfOk result (λ line. line ≡ detected_line seen all) }
{
    let mut line = Text::new(alloc);
    line.push_bytes(b"detected ")?;
    line.push_decimal(seen as u64)?;
    line.push_bytes(b" of ")?;
    line.push_decimal(all as u64)?;
    line.push_bytes(b"\n")?;
    Ok(line)
}
