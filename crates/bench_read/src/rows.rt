//! What the lines of a text say, line by line.

ghost use Rattle.std.specs.Prelude.{◌≡◌, ◌⊎◌, ◌<◌, ◌≤◌, ◌^◌, ◌++◌, [], ◌∷◌, List as Items, None, Some, Err, MatchResult, OnOk, map, length};
ghost use Rattle.limits.specs.declared.TheConstants.{MAX_OPERANDS};
ghost use Rattle.text_lines.specs.Answers.{Answers};
ghost use Rattle.bench_text.specs.Rows.{Row, row_of, rows_of, rows_in};
ghost use Rattle.bench_read.specs.code.Storing.{name_in, names_by, printed_by, operands_by, IsFound, Stores};
ghost use Rattle.bench_read.specs.{declared.refusal.BenchNo.TheVariants.Memory as NoMemory, Saying.said, Placed.placed_of};
ghost use Rattle.bench_read.specs.{Faults.limit_fault, Faults.rows_fault, code.Drafting.IsDraftOf};
ghost use Rattle.bench_read.specs.code.Storing as storing;

use crate::draft::{Act, Draft, Statement};
use crate::drivers::drive;
use crate::refusal::{BenchNo, Many};
use crate::say::say;
use bench_text::form::{Head, read_form};
use bench_text::no_more;
use limits::{MAX_OPERANDS, MAX_SIGNALS};
use seen_list::{List, Memory};
use std::alloc::Global;
use text_lines::Lines;

/// What the lines of the text say, or the fault of the first line that has one.
pub fn read_rows<'a>(alloc: Global, text: &'a [u8]) -> Result<Draft<'a>, BenchNo>
    requires { length text.now < 2 ^ 32 }
    ensures { Answers NoMemory result (rows_fault (rows_of text.now)) (IsDraftOf (rows_of text.now)) }
{
    let mut draft = Draft::new(alloc);
    read_lines(alloc, text, &mut draft)?;
    Ok(draft)
}

/// Adds what the lines of the text say to a draft of no lines, or answers the fault of the first line that has one.
fn read_lines<'a>(alloc: Global, text: &'a [u8], draft: &mut Draft<'a>) -> Result<(), BenchNo>
    requires short { length text.now < 2 ^ 32 }
    requires none { Stores draft.old [] }
    ensures { Answers NoMemory result (rows_fault (rows_of text.now)) (λ _. IsDraftOf (rows_of text.now) draft.new) }
{
    'lines: for (at, part) in Lines::new(text) {
        read_line(alloc, at, part, draft)?;
    }
    Ok(())
}

/// Adds what one line says, if it says anything, or answers its fault.
fn read_line<'a>(
    alloc: Global,
    at: u32,
    part: &'a [u8],
    draft: &mut Draft<'a>,
) -> Result<(), BenchNo>
    requires few { draft.old.operands ≤ MAX_OPERANDS }
    requires names { draft.old.names ≡ names_by draft.old.drivers }
    ensures { (rows : Items Row) → rows_fault rows ≡ None → Stores draft.old (placed_of rows)
        → Answers NoMemory result (rows_fault (rows ++ rows_in ((at, part.now) ∷ [])))
        (λ _. Stores draft.new (placed_of (rows ++ rows_in ((at, part.now) ∷ [])))) }
{
    if no_more(part) {
        return Ok(());
    }
    read_row(alloc, at, part, draft)
}

/// The same of a line that has a mark or a name.
fn read_row<'a>(
    alloc: Global,
    at: u32,
    part: &'a [u8],
    draft: &mut Draft<'a>,
) -> Result<(), BenchNo>
    requires few { draft.old.operands ≤ MAX_OPERANDS }
    requires names { draft.old.names ≡ names_by draft.old.drivers }
    ensures { (rows : Items Row) → rows_fault rows ≡ None → Stores draft.old (placed_of rows)
        → Answers NoMemory result (rows_fault (rows ++ row_of (at, part.now) ∷ []))
        (λ _. Stores draft.new (placed_of (rows ++ row_of (at, part.now) ∷ []))) }
{
    let mut outs = List::new(alloc);
    let (act, name) = read_act(at, part, &mut outs, &mut draft.uses)?;
    drive(
        alloc,
        at,
        driven_by(act, &[name], outs.as_slice()),
        &mut draft.names,
        &mut draft.drivers,
    )?;
    draft.operands += operands_by(act);
    check_limits(at, draft.drivers.len(), draft.operands)?;
    draft.statements.push(Statement { act, at })?;
    Ok(())
}

/// What the line says, with its one name, or its fault. The names in its square brackets are added to one
/// list, and those that it uses to the other.
fn read_act<'a>(
    at: u32,
    part: &'a [u8],
    outs: &mut List<&'a [u8]>,
    uses: &mut List<&'a [u8]>,
) -> Result<(Act, &'a [u8]), BenchNo>
    requires { outs.old ≡ [] }
    ensures { MatchResult result
        (λ found. IsFound (row_of (at, part.now)) found.0 (storing.driven_by found.0 (found.1.now ∷ []) (map (λ name. name.now) outs.new))
        (map (λ name. name.now) uses.old) (map (λ name. name.now) uses.new))
        (λ no. (no ≡ NoMemory) ⊎ (said (row_of (at, part.now)) ≡ Err no)) }
{
    let Some(head) = read_form(part, outs, uses)? else {
        return Err(BenchNo::Syntax { line: at });
    };
    let act = say(at, head)?;
    let name = name_in(head);
    push_printed(act, name, uses)?;
    Ok((act, name))
}

/// The name of a port or gate.
fn name_in(head: Head) -> &[u8]
    ensures { result.now ≡ name_in head.entry }
{
    match head {
        Head::Port { name, .. } | Head::Gate { name, .. } => name,
        Head::Memory { .. } => &[],
    }
}

/// Adds the name that an output line uses.
fn push_printed<'a>(act: Act, name: &'a [u8], uses: &mut List<&'a [u8]>) -> Result<(), Memory>
    ensures { OnOk result (map (λ name. name.now) uses.new ≡ map (λ name. name.now) uses.old ++ printed_by act name.now) }
{
    match act {
        Act::Output => {
            uses.push(name)?;
            Ok(())
        }
        _ => Ok(()),
    }
}

/// Of its one name and the names in its square brackets, those that a line drives.
fn driven_by<'s, 'a>(act: Act, one: &'s [&'a [u8]], outs: &'s [&'a [u8]]) -> &'s [&'a [u8]]
    ensures { map (λ name. name.now) result.now ≡ storing.driven_by act (map (λ name. name.now) one.now) (map (λ name. name.now) outs.now) }
{
    match act {
        Act::Output => &[],
        Act::Memory { .. } => outs,
        _ => one,
    }
}

/// How many operands a line has.
fn operands_by(act: Act) -> usize
    ensures { result ≡ operands_by act }
{
    match act {
        Act::Input | Act::Output => 0,
        Act::Gate { uses, .. } => uses as usize,
        Act::Register => 1,
        Act::Memory { address, words, .. } => 1 + (address as usize + words as usize),
    }
}

/// Refuses too many signals, or else too many operands.
fn check_limits(at: u32, signals: usize, operands: usize) -> Result<(), BenchNo>
    ensures { MatchResult result (λ _. limit_fault at signals operands ≡ None) (λ no. limit_fault at signals operands ≡ Some no) }
{
    if signals > MAX_SIGNALS {
        return Err(BenchNo::TooMany {
            line: at,
            what: Many::Signals,
        });
    }
    if operands > MAX_OPERANDS {
        return Err(BenchNo::TooMany {
            line: at,
            what: Many::Operands,
        });
    }
    Ok(())
}
