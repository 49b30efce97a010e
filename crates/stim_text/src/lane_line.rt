//! One line of a text of lanes.

ghost use Rattle.std.specs.Prelude.{◌≡◌, ◌≢◌, ◌⊎◌, ◌+◌, ◌≤◌, ◌<◌, ◌^◌, Some, None, length, nat_lt, if◌then◌else◌, IfOk, IfErr};
ghost use Rattle.std.specs.Option.{option_map};
ghost use Rattle.text_lines.specs.{Answers.Answers, code.Answers.fault_or};
ghost use Rattle.stim_text.specs.declared.lane_line.LaneLine.TheVariants as lane_line;
ghost use Rattle.stim_text.specs.declared.refusal.LaneNo.TheVariants.{NoLane, TooMany, Stim, Memory as NoMemory};
ghost use Rattle.stim_text.specs.{Repeats.is_blank_part, Rows.row_of, Rows.fault_of, LaneTexts.begins_lane, LaneTexts.lane_fault};
ghost use Rattle.stim_text.specs.code.LaneTexts.{lane_line_of, row_line, times_in};
ghost use Rattle.stim_text.specs.declared.refusal.StimNo.TheVariants as stim_no;

use crate::refusal::{LaneNo, StimNo};
use crate::repeat::{is_blank_part, only_word};
use crate::row::read_row;
use limits::{LANES, MAX_CYCLES};
use net_defs::StimRow;
use std::alloc::Global;

/// What a line of a text of lanes is.
#[derive(Drop)]
pub enum LaneLine {
    Begins,
    Blank,
    Row(StimRow),
}

/// Reads the part of a line outside its comment, after so many lanes have begun, the last of which
/// has so many cycles: what it is, or its fault.
#[tactic(auto, unfolding(crate::specs::LaneTexts::lane_fault, crate::specs::code::LaneTexts::lane_line_of))]
pub fn read_line(
    alloc: Global,
    inputs: u32,
    lanes: usize,
    cycles: u32,
    line: u32,
    part: &[u8],
) -> Result<LaneLine, LaneNo>
    requires short { length part.now < 2 ^ 32 }
    requires few { cycles ≤ MAX_CYCLES }
    ensures answers { Answers NoMemory result (lane_fault inputs lanes cycles line part.now) (λ read. read ≡ lane_line_of part.now) }
    ensures fits { IfOk result (λ read. cycles + times_in read ≤ MAX_CYCLES) }
    ensures stim { IfErr result (λ e. e ≢ Stim stim_no.Memory) }
{
    if begins_lane(part) {
        return begin(lanes, line);
    }
    if lanes == 0 {
        return read_outside(line, part);
    }
    read_inside(alloc, inputs, cycles, line, part)
}

/// A line that begins a lane after so many.
fn begin(lanes: usize, line: u32) -> Result<LaneLine, LaneNo>
    ensures { result ≡ fault_or (if nat_lt lanes LANES then None else Some (TooMany line)) lane_line.Begins }
{
    if lanes < LANES {
        Ok(LaneLine::Begins)
    } else {
        Err(LaneNo::TooMany { line })
    }
}

/// A line that begins no lane where none has begun.
#[tactic(auto, unfolding(crate::specs::Rows::row_of))]
fn read_outside(line: u32, part: &[u8]) -> Result<LaneLine, LaneNo>
    ensures blank { IfOk result (λ read. read ≡ row_line (row_of part.now)) }
    ensures answers { result ≡ fault_or (if is_blank_part part.now then None else Some (NoLane line)) lane_line.Blank }
{
    if is_blank_part(part) {
        Ok(LaneLine::Blank)
    } else {
        Err(LaneNo::NoLane { line })
    }
}

/// A line that begins no lane where one has begun.
fn read_inside(
    alloc: Global,
    inputs: u32,
    cycles: u32,
    line: u32,
    part: &[u8],
) -> Result<LaneLine, LaneNo>
    requires short { length part.now < 2 ^ 32 }
    requires few { cycles ≤ MAX_CYCLES }
    ensures answers { Answers NoMemory result (option_map Stim (fault_of inputs cycles line part.now)) (λ read. read ≡ row_line (row_of part.now)) }
    ensures fits { IfOk result (λ read. cycles + times_in read ≤ MAX_CYCLES) }
    ensures stim { IfErr result (λ e. e ≢ Stim stim_no.Memory) }
{
    match read_row(alloc, inputs, cycles, line, part) {
        Ok(Some(row)) => Ok(LaneLine::Row(row)),
        Ok(None) => Ok(LaneLine::Blank),
        Err(no) => Err(lane_no(no)),
    }
}

/// The refusal for this fault of a lane's line.
fn lane_no(no: StimNo) -> LaneNo
    ensures { (no ≡ stim_no.Memory) × (result ≡ NoMemory) ⊎ (no ≢ stim_no.Memory) × (result ≡ Stim no) }
{
    match no {
        StimNo::Memory => LaneNo::Memory,
        StimNo::BadChar { line } => LaneNo::Stim(StimNo::BadChar { line }),
        StimNo::Width { line, got, want } => LaneNo::Stim(StimNo::Width { line, got, want }),
        StimNo::Repeat { line } => LaneNo::Stim(StimNo::Repeat { line }),
        StimNo::TooManyCycles => LaneNo::Stim(StimNo::TooManyCycles),
    }
}

/// Whether the part of a line is the word `lane`, with blanks around.
#[tactic(auto, unfolding(crate::specs::LaneTexts::begins_lane))]
fn begins_lane(part: &[u8]) -> bool
    ensures { result ≡ begins_lane part.now }
{
    match only_word(part) {
        Some(word) => word == b"lane".as_slice(),
        None => false,
    }
}
