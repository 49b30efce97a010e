//! The lines of the marks of all signals: for each signal its name and its marks, and a last line on how many are
//! covered.

ghost use Rattle.std.specs.Prelude.{◌≡◌, IfOk, count_by, length, map};
ghost use Rattle.std.specs.List.{zip};
ghost use Rattle.cover_sim.specs.Lines.{cover_lines, covered_line, is_covered, sign_of, signal_line};

use crate::Marks;
use net_defs::{Netlist, Signal};
use seen_list::{List, Memory, Text};
use std::alloc::Global;

/// The lines of these marks, one for each signal, and the last line.
pub fn cover_lines(alloc: Global, net: &Netlist, marks: &[Marks]) -> Result<List<Text>, Memory>
    requires count { length marks.now ≡ length net.now.signals }
    ensures { IfOk result (λ lines. lines ≡ cover_lines net.now marks.now) }
{
    let mut lines = signal_lines(alloc, net, marks)?;
    lines.push(covered_line(alloc, covered(marks), marks.len())?)?;
    Ok(lines)
}

/// The lines of the signals.
fn signal_lines(alloc: Global, net: &Netlist, marks: &[Marks]) -> Result<List<Text>, Memory>
    requires count { length marks.now ≡ length net.now.signals }
    ensures { IfOk result (λ lines. lines ≡ map (λ p. signal_line p.0.name p.1) (zip net.now.signals marks.now)) }
{
    let signals = net.signals.as_slice();
    let mut lines = List::new(alloc);
    'signals: for s in 0..marks.len() {
        lines.push(signal_line(alloc, &signals[s], marks[s])?)?;
    }
    Ok(lines)
}

/// The line of a signal.
#[tactic(auto, unfolding(crate::specs::Lines::signal_line))]
fn signal_line(alloc: Global, signal: &Signal, marks: Marks) -> Result<Text, Memory>
    ensures { IfOk result (λ line. line ≡ signal_line signal.now.name marks) }
{
    let mut line = Text::new(alloc);
    line.push_bytes(signal.name.as_bytes())?;
    line.push_bytes(b" ")?;
    line.push_bytes(sign_of(marks.zero, b"0"))?;
    line.push_bytes(sign_of(marks.one, b"1"))?;
    line.push_bytes(sign_of(marks.rise, b"r"))?;
    line.push_bytes(sign_of(marks.fall, b"f"))?;
    line.push_bytes(b"\n")?;
    Ok(line)
}

/// The sign of a mark, or that of none.
fn sign_of(has: bool, sign: &'static [u8]) -> &'static [u8]
    ensures { result.now ≡ sign_of has sign.now }
{
    if has { sign } else { b"-" }
}

/// How many signals are covered.
fn covered(marks: &[Marks]) -> usize
    ensures { result ≡ count_by is_covered marks.now }
{
    marks.iter().filter(|marks| is_covered(marks)).count()
}

/// Whether a signal has all four marks.
fn is_covered(marks: &Marks) -> bool
    ensures { result ≡ is_covered marks.now }
{
    marks.zero && marks.one && marks.rise && marks.fall
}

/// The last line.
#[tactic(auto, unfolding(crate::specs::Lines::covered_line))]
fn covered_line(alloc: Global, covered: usize, all: usize) -> Result<Text, Memory>
    ensures { IfOk result (λ line. line ≡ covered_line covered all) }
{
    let mut line = Text::new(alloc);
    line.push_bytes(b"covered ")?;
    line.push_decimal(covered as u64)?;
    line.push_bytes(b" of ")?;
    line.push_decimal(all as u64)?;
    line.push_bytes(b"\n")?;
    Ok(line)
}
