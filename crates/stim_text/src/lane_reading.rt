//! The reader of texts of lanes.

ghost use Rattle.std.specs.Prelude.{◌≡◌, ◌≢◌, ◌≤◌, ◌<◌, List as Items, [], ◌∷◌, ◌++◌, None, MatchResult, IfOk, IfErr, OnOk, length, map};
ghost use Rattle.limits.specs.declared.TheConstants.{MAX_TEXT_BYTES};
ghost use Rattle.text_lines.specs.{Answers.Answers, Lines.parts_of};
ghost use Rattle.net_defs.specs.declared.stimulus.Stimulus.{Stimulus};
ghost use Rattle.stim_text.specs.LaneTexts.{ReadsAsLanes, first_lanes_fault, lane_lines, stimulus_of};
ghost use Rattle.stim_text.specs.declared.{lanes.Lanes.Lanes, refusal.LaneNo.TheVariants.Memory as NoMemory, refusal.LaneNo.TheVariants.Stim};
ghost use Rattle.stim_text.specs.Lanes.{AreLanes};
ghost use Rattle.stim_text.specs.declared.refusal.StimNo.TheVariants as stim_no;

use crate::lane_line::{LaneLine, read_line};
use crate::lanes::Lanes;
use crate::reading::cycles_with;
use crate::refusal::LaneNo;
use net_defs::{StimRow, Stimulus};
use seen_list::{List, Memory};
use std::alloc::Global;
use text_lines::Lines;

/// The lanes that the text describes, each a stimulus of a netlist of so many inputs, or the text's
/// first fault. Before the first lane a line that is not blank is told as that alone; of the faults
/// of a lane's line the first is told as `read_stim` does.
pub fn read_lanes(alloc: Global, bytes: &[u8], inputs: u32) -> Result<Lanes, LaneNo>
    requires { length bytes.now ≤ MAX_TEXT_BYTES }

    // What is read is what the text reads as, a refusal is the first fault, or memory ran out.
    ensures answers { Answers NoMemory result (first_lanes_fault inputs bytes.now) (ReadsAsLanes inputs bytes.now) }

    // What is read is at most `LANES` lanes, each with a valid stimulus for these inputs.
    ensures lanes { IfOk result (AreLanes inputs) }

    // The fault of a lane's line is never that of the memory.
    ensures stim { IfErr result (λ e. e ≢ Stim stim_no.Memory) }

    // What the text reads as is read, unless memory ran out, and has no fault.
    ensures only { (lanes : Lanes) → ReadsAsLanes inputs bytes.now lanes
        → (first_lanes_fault inputs bytes.now ≡ None) × MatchResult result (λ read. read ≡ lanes) (λ e. e ≡ NoMemory) }
{
    let lanes = read_stimuli(alloc, bytes, inputs)?;
    Ok(Lanes { lanes })
}

/// The stimuli of the lanes, or the fault of the first line that has one.
fn read_stimuli(alloc: Global, bytes: &[u8], inputs: u32) -> Result<List<Stimulus>, LaneNo>
    requires { length bytes.now ≤ MAX_TEXT_BYTES }
    ensures answers { Answers NoMemory result (first_lanes_fault inputs bytes.now)
        (λ lanes. lanes ≡ map (stimulus_of inputs) (lane_lines (parts_of bytes.now))) }
    ensures stim { IfErr result (λ e. e ≢ Stim stim_no.Memory) }
{
    let mut lanes = List::new(alloc);
    let mut cycles = 0;
    'lines: for (line, part) in Lines::new(bytes) {
        match read_line(alloc, inputs, lanes.len(), cycles, line, part)? {
            LaneLine::Begins => {
                lanes.push(Stimulus {
                    columns: inputs,
                    rows: List::new(alloc),
                })?;
                cycles = 0;
            }
            LaneLine::Blank => {}
            LaneLine::Row(row) => {
                cycles = cycles_with(cycles, &row);
                add_to_last(&mut lanes, row)?;
            }
        }
    }
    Ok(lanes)
}

/// Adds a row to the last of the lanes.
fn add_to_last(lanes: &mut List<Stimulus>, row: StimRow) -> Result<(), Memory>
    requires some { 0 < length lanes.old }
    ensures { (before : Items Stimulus) (last : Stimulus) → lanes.old ≡ before ++ last ∷ []
        → OnOk result (lanes.new ≡ before ++ (record last { rows = last.rows ++ row ∷ [] }) ∷ []) }
{
    let last = lanes.len() - 1;
    add_row(&mut lanes.as_mut_slice()[last], row)?;
    Ok(())
}

/// Adds a row to a stimulus.
fn add_row(stimulus: &mut Stimulus, row: StimRow) -> Result<(), Memory>
    ensures { OnOk result (stimulus.new ≡ record stimulus.old { rows = stimulus.old.rows ++ row ∷ [] }) }
{
    stimulus.rows.push(row)?;
    Ok(())
}
