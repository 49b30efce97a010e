//! The reader of order texts.

ghost use Rattle.std.specs.Prelude.{◌≡◌, ◌+◌, ◌≤◌, None, MatchResult, IfOk, length};
ghost use Rattle.limits.specs.declared.TheConstants.{MAX_TEXT_BYTES, MAX_STEPS};
ghost use Rattle.text_lines.specs.{Answers.Answers, Lines.parts_of};
ghost use Rattle.stim_text.specs.Orders.{Reads, IsValidOrder, first_fault, lines_of, step_count};
ghost use Rattle.stim_text.specs.declared.{order.Order.Order, refusal.OrderNo.TheVariants.Memory as NoMemory};

use crate::order::{Order, OrderLine};
use crate::order_line::read_line;
use crate::refusal::OrderNo;
use seen_list::List;
use std::alloc::Global;
use text_lines::Lines;

/// The order of steps of so many ports that the text describes, or the text's first fault. Of a
/// line's faults the first of these is told: another form or a repeat that is not allowed, no such
/// port, too many steps.
pub fn read_order(alloc: Global, bytes: &[u8], ports: u32) -> Result<Order, OrderNo>
    requires { length bytes.now ≤ MAX_TEXT_BYTES }

    // What is read is what the text reads as, a refusal is the first fault, or memory ran out.
    ensures answers { Answers NoMemory result (first_fault ports bytes.now) (Reads ports bytes.now) }

    // What is read is a valid order of so many ports.
    ensures valid { IfOk result (IsValidOrder ports) }

    // What the text reads as is read, unless memory ran out, and has no fault.
    ensures only { (order : Order) → Reads ports bytes.now order
        → (first_fault ports bytes.now ≡ None) × MatchResult result (λ read. read ≡ order) (λ e. e ≡ NoMemory) }
{
    let lines = read_lines(alloc, bytes, ports)?;
    Ok(Order { lines })
}

/// The lines of the order, or the fault of the text's first line that has one.
fn read_lines(alloc: Global, bytes: &[u8], ports: u32) -> Result<List<OrderLine>, OrderNo>
    requires { length bytes.now ≤ MAX_TEXT_BYTES }
    ensures { Answers NoMemory result (first_fault ports bytes.now)
        (λ lines. (lines ≡ lines_of (parts_of bytes.now)) × (step_count lines ≤ MAX_STEPS)) }
{
    let mut lines = List::new(alloc);
    let mut steps = 0;
    for (line, part) in Lines::new(bytes) {
        if let Some(order_line) = read_line(ports, steps, line, part)? {
            steps = steps_with(steps, order_line);
            lines.push(order_line)?;
        }
    }
    Ok(lines)
}

/// The steps of lines and of one line more.
fn steps_with(steps: u32, order_line: OrderLine) -> u32
    requires { steps + order_line.times ≤ MAX_STEPS }
    ensures { result ≡ steps + order_line.times }
{
    steps + order_line.times
}
