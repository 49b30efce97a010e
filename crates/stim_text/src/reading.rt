//! The reader of stimulus texts.

ghost use Rattle.std.specs.Prelude.{◌≡◌, ◌+◌, ◌≤◌, None, MatchResult, IfOk, length};
ghost use Rattle.limits.specs.declared.TheConstants.{MAX_CYCLES, MAX_TEXT_BYTES};
ghost use Rattle.text_lines.specs.{Answers.Answers, Lines.parts_of};
ghost use Rattle.net_defs.specs.{declared.stimulus.Stimulus.Stimulus, Valid.IsValidStimulus};
ghost use Rattle.stim_text.specs.Stimuli.{Reads, first_fault, rows_of, cycles_of};
ghost use Rattle.stim_text.specs.declared.refusal.StimNo.TheVariants.{Memory as NoMemory};

use crate::refusal::StimNo;
use crate::row::read_row;
use net_defs::{StimRow, Stimulus};
use seen_list::List;
use std::alloc::Global;
use text_lines::Lines;

/// The stimulus that the text describes for a netlist of so many inputs, or the text's first fault.
/// Of a line's faults the first of these is told: a bad character, a bad repeat, a wrong number of
/// values, too many cycles.
pub fn read_stim(alloc: Global, bytes: &[u8], inputs: u32) -> Result<Stimulus, StimNo>
    requires { length bytes.now ≤ MAX_TEXT_BYTES }

    // What is read is what the text reads as, a refusal is the first fault, or memory ran out.
    ensures answers { Answers NoMemory result (first_fault inputs bytes.now) (Reads inputs bytes.now) }

    // What is read is a valid stimulus for these inputs.
    ensures valid { IfOk result IsValidStimulus }
    ensures columns { IfOk result (λ stimulus. stimulus.columns ≡ inputs) }

    // What the text reads as is read, unless memory ran out, and has no fault.
    ensures only { (stimulus : Stimulus) → Reads inputs bytes.now stimulus
        → (first_fault inputs bytes.now ≡ None) × MatchResult result (λ read. read ≡ stimulus) (λ e. e ≡ NoMemory) }
{
    let rows = read_rows(alloc, bytes, inputs)?;
    Ok(Stimulus {
        columns: inputs,
        rows,
    })
}

/// The rows of the text, or the fault of the first line that has one.
fn read_rows(alloc: Global, bytes: &[u8], inputs: u32) -> Result<List<StimRow>, StimNo>
    requires { length bytes.now ≤ MAX_TEXT_BYTES }
    ensures { Answers NoMemory result (first_fault inputs bytes.now)
        (λ rows. (rows ≡ rows_of (parts_of bytes.now)) × (cycles_of rows ≤ MAX_CYCLES)) }
{
    let mut rows = List::new(alloc);
    let mut cycles = 0;
    for (line, part) in Lines::new(bytes) {
        if let Some(row) = read_row(alloc, inputs, cycles, line, part)? {
            cycles = cycles_with(cycles, &row);
            rows.push(row)?;
        }
    }
    Ok(rows)
}

/// The cycles of rows and of one row more.
pub fn cycles_with(cycles: u32, row: &StimRow) -> u32
    requires { cycles + row.now.times ≤ MAX_CYCLES }
    ensures { result ≡ cycles + row.now.times }
{
    cycles + row.times
}
