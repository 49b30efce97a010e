//! One line of an order text.

ghost use Rattle.std.specs.Prelude.{◌≡◌, ◌+◌, ◌≤◌, Some, IfOk, IfSome};
ghost use Rattle.text_lines.specs.code.Answers.{fault_or};
ghost use Rattle.stim_text.specs.OrderLines.{line_of, form_fault, fault_of};

use crate::order::OrderLine;
use crate::refusal::OrderNo;
use crate::repeat::{cut_repeat, is_blank_part, number_in};
use limits::MAX_STEPS;

/// Reads the part of a line outside its comment, after lines of so many steps: the line of the order
/// that it is, or `None` where it is blank, or its fault.
#[tactic(auto, unfolding(crate::specs::OrderLines::fault_of, crate::specs::OrderLines::line_of))]
pub fn read_line(
    ports: u32,
    steps: u32,
    line: u32,
    part: &[u8],
) -> Result<Option<OrderLine>, OrderNo>
    requires few { steps ≤ MAX_STEPS }
    ensures answers { result ≡ fault_or (fault_of ports steps line part.now) (line_of part.now) }
    ensures fits { IfOk result (λ read. IfSome read (λ order_line. steps + order_line.times ≤ MAX_STEPS)) }
{
    if is_blank_part(part) {
        return Ok(None);
    }
    let (port, repeat) = cut_repeat(part);
    match (number_in(port), repeat) {
        (Some(port), Some(times)) => match checked_line(ports, steps, line, port, times) {
            Ok(order_line) => Ok(Some(order_line)),
            Err(fault) => Err(fault),
        },
        _ => Err(OrderNo::Syntax { line }),
    }
}

/// The line with this number of a port and this repeat, or its fault.
fn checked_line(
    ports: u32,
    steps: u32,
    line: u32,
    port: u64,
    times: u32,
) -> Result<OrderLine, OrderNo>
    requires few { steps ≤ MAX_STEPS }
    ensures answers { result ≡ fault_or (form_fault ports steps line (Some (record { port = port; times = times }))) (record { port = port; times = times }) }
    ensures fits { IfOk result (λ order_line. steps + order_line.times ≤ MAX_STEPS) }
{
    if port >= u64::from(ports) {
        return Err(OrderNo::Port { line });
    }
    if times > MAX_STEPS - steps {
        return Err(OrderNo::TooLong { line });
    }
    Ok(OrderLine {
        port: port as u32,
        times,
    })
}
