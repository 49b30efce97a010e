//! Which lines the limits leave room for.

ghost use Rattle.std.specs.Prelude.{◌≡◌, ◌+◌, ◌≤◌, ◌<◌, ◌^◌, if◌then◌else◌, true, length};
ghost use Rattle.std.specs.List.{count_by};
ghost use Rattle.image_lines.specs.Forms.{is_within};
ghost use Rattle.image_lines.specs.declared.line.Line.TheVariants as line;
ghost use Rattle.image_file.specs.Drafts as drafts;
ghost use Rattle.image_file.specs.Ranges as ranges;

use crate::draft::{Body, Draft};
use image_defs::{BlockWork, PortImage, Work};
use image_lines::{Line, PortKind};
use limits::{MAX_ARRAY, MAX_ARRAY_BITS, MAX_FUNCTIONS};

/// Whether the limits leave room for the line.
pub(crate) fn has_room(draft: &Draft, line: &Line) -> bool
    requires { is_within line.now ≡ true }
    ensures { result ≡ drafts.has_room draft.now line.now }
{
    match draft {
        Draft::Within(body) => body_holds(body, line),
        _ => true,
    }
}

fn body_holds(body: &Body, line: &Line) -> bool
    requires { is_within line.now ≡ true }
    ensures { result ≡ drafts.body_holds body.now line.now }
{
    match line {
        Line::Port(PortKind::Array) => array_count(body) < MAX_ARRAY as usize,
        Line::Table(_) => table_count(&body.current.port.work) < MAX_FUNCTIONS as usize,
        Line::Block(block) => body.current.bits.saturating_add(block_bits(block))
            <= u64::from(MAX_ARRAY_BITS),
        _ => true,
    }
}

fn array_count(body: &Body) -> usize
    ensures { result ≡ drafts.array_count body.now }
{
    let others = count_arrays(body.ports.as_slice());
    if is_array(&body.current.port.work) {
        others + 1
    } else {
        others
    }
}

fn count_arrays(ports: &[PortImage]) -> usize
    ensures counted { result ≡ count_by (λ port. ranges.is_array port.work) ports.now }
    ensures few { result ≤ length ports.now }
{
    let mut count = 0;
    for port in ports {
        count = count_with(count, port);
    }
    count
}

fn count_with(count: usize, port: &PortImage) -> usize
    requires { count < 2 ^ 63 }
    ensures { result ≡ count + (if ranges.is_array port.now.work then 1 else 0) }
{
    if is_array(&port.work) {
        count + 1
    } else {
        count
    }
}

fn is_array(work: &Work) -> bool
    ensures { result ≡ ranges.is_array work.now }
{
    matches!(work, Work::Array { .. })
}

fn table_count(work: &Work) -> usize
    ensures { result ≡ length (ranges.tables_of work.now) }
{
    match work {
        Work::Logic { tables, .. } => tables.len(),
        Work::Array { .. } | Work::Host { .. } => 0,
    }
}

/// The bits of a memory.
pub(crate) fn block_bits(block: &BlockWork) -> u64
    requires { is_within (line.Block block.now) ≡ true }
    ensures { result ≡ ranges.block_bits block.now }
{
    (block.word.len() as u64) << block.address.len()
}
