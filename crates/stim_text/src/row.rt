//! One line of a stimulus text.

ghost use Rattle.std.specs.Prelude.{◌≡◌, ◌+◌, ◌≤◌, ◌<◌, ◌^◌, Some, None, max, List as Items, [], ◌∷◌, length, MatchResult, IfOk, IfSome};
ghost use Rattle.std.specs.List.{list_all, filter_map};
ghost use Rattle.text_lines.specs.Answers.{Answers};
ghost use Rattle.logic_four.specs.Values.{char_value};
ghost use Rattle.stim_text.specs.Rows.{is_value_byte, may_stand, width_of, row_of, row_fault, fault_of};
ghost use Rattle.stim_text.specs.declared.refusal.StimNo.TheVariants.{Memory as NoMemory};

use crate::refusal::StimNo;
use crate::repeat::{cut_repeat, is_blank_part};
use limits::MAX_CYCLES;
use logic_four::{V4, of_char};
use net_defs::StimRow;
use seen_list::{List, Memory};
use std::alloc::Global;
use text_lines::bytes::is_blank;

/// Reads the part of a line outside its comment, after rows of so many cycles: the row that it is,
/// or `None` where it is blank, or its fault.
#[tactic(auto, unfolding(crate::specs::Rows::fault_of, crate::specs::Rows::row_of))]
pub fn read_row(
    alloc: Global,
    inputs: u32,
    cycles: u32,
    line: u32,
    part: &[u8],
) -> Result<Option<StimRow>, StimNo>
    requires short { length part.now < 2 ^ 32 }
    requires few { cycles ≤ MAX_CYCLES }
    ensures answers { Answers NoMemory result (fault_of inputs cycles line part.now) (λ row. row ≡ row_of part.now) }
    ensures fits { IfOk result (λ read. IfSome read (λ row. cycles + row.times ≤ MAX_CYCLES)) }
{
    if is_blank_part(part) {
        return Ok(None);
    }
    let (values, repeat) = cut_repeat(part);
    let times = checked_repeat(inputs, cycles, line, values, repeat)?;
    let values = values_in(alloc, values)?;
    Ok(Some(StimRow { values, times }))
}

/// The repeat of a row, or the row's fault.
fn checked_repeat(
    inputs: u32,
    cycles: u32,
    line: u32,
    values: &[u8],
    repeat: Option<u32>,
) -> Result<u32, StimNo>
    requires short { length values.now < 2 ^ 32 }
    requires few { cycles ≤ MAX_CYCLES }
    ensures checked { MatchResult result
        (λ times. (row_fault inputs cycles line values.now repeat ≡ None) × (repeat ≡ Some times))
        (λ e. row_fault inputs cycles line values.now repeat ≡ Some e) }
    ensures fits { IfOk result (λ times. cycles + times ≤ MAX_CYCLES) }
{
    if !are_allowed(inputs, values) {
        return Err(StimNo::BadChar { line });
    }
    let Some(times) = repeat else {
        return Err(StimNo::Repeat { line });
    };
    let got = width(inputs, values);
    let want = inputs.max(1);
    if got != want {
        return Err(StimNo::Width { line, got, want });
    }
    if times > MAX_CYCLES - cycles {
        return Err(StimNo::TooManyCycles);
    }
    Ok(times)
}

/// Whether the byte stands for the value of an input; where there are no inputs, whether it is `-`.
#[tactic(auto, unfolding(crate::specs::Rows::is_value_byte))]
fn is_value_byte(inputs: u32, byte: u8) -> bool
    ensures { result ≡ is_value_byte inputs byte }
{
    if inputs == 0 {
        byte == b'-'
    } else {
        of_char(byte).is_some()
    }
}

/// Whether value bytes and blanks alone stand among the values.
#[tactic(auto, unfolding(crate::specs::Rows::may_stand))]
fn are_allowed(inputs: u32, values: &[u8]) -> bool
    ensures { result ≡ list_all (may_stand inputs) values.now }
{
    values
        .iter()
        .all(|byte| is_blank(*byte) || is_value_byte(inputs, *byte))
}

/// The number of value bytes.
#[tactic(auto, unfolding(crate::specs::Rows::width_of))]
fn width(inputs: u32, values: &[u8]) -> u32
    requires { length values.now < 2 ^ 32 }
    ensures { result ≡ width_of inputs values.now }
{
    values
        .iter()
        .filter(|byte| is_value_byte(inputs, **byte))
        .count() as u32
}

/// The values that the characters stand for, in order. Other bytes stand for none.
fn values_in(alloc: Global, bytes: &[u8]) -> Result<List<V4>, Memory>
    ensures { IfOk result (λ values. values ≡ filter_map char_value bytes.now) }
{
    let mut values = List::new(alloc);
    for byte in bytes {
        if let Some(value) = of_char(*byte) {
            values.push(value)?;
        }
    }
    Ok(values)
}
