//! Which lines may stand where.

ghost use Rattle.std.specs.Prelude.{◌≡◌};
ghost use Rattle.image_file.specs.Drafts as drafts;

use crate::draft::{Body, Draft};
use image_defs::{PortImage, Work};
use image_lines::Line;

/// Whether the line may stand behind what has been read.
pub(crate) fn may_stand(draft: &Draft, line: &Line) -> bool
    ensures { result ≡ drafts.may_stand draft.now line.now }
{
    match draft {
        Draft::Blank => matches!(line, Line::Version),
        Draft::Titled => matches!(line, Line::Head(_)),
        Draft::Sized(_) => matches!(line, Line::Port(_)),
        Draft::Within(body) => body_allows(body, line),
        Draft::Ended(_) => false,
    }
}

fn body_allows(body: &Body, line: &Line) -> bool
    ensures { result ≡ drafts.body_allows body.now line.now }
{
    let others = body.sizes.ports.saturating_sub(1) as usize;
    match line {
        Line::Port(_) => body.ports.len() < others,
        Line::End => body.ports.len() == others,
        _ => port_allows(&body.current.port, line),
    }
}

fn port_allows(port: &PortImage, line: &Line) -> bool
    ensures { result ≡ drafts.port_allows port.now line.now }
{
    match line {
        Line::Take(_) => true,
        Line::Send(_) => port.ins.len() == 0,
        _ => port.ins.len() == 0 && port.outs.len() == 0 && work_allows(&port.work, line),
    }
}

fn work_allows(work: &Work, line: &Line) -> bool
    ensures { result ≡ drafts.work_allows work.now line.now }
{
    match work {
        Work::Logic { tasks, .. } => {
            match line {
                Line::Table(_) => tasks.len() == 0,
                Line::Work { .. } => true,
                _ => false,
            }
        }
        Work::Array { outs, .. } => {
            match line {
                Line::Block(_) => outs.len() == 0,
                Line::Bit { .. } => true,
                _ => false,
            }
        }
        Work::Host { printed, .. } => {
            match line {
                Line::Input { .. } => printed.len() == 0,
                Line::Print(_) => true,
                _ => false,
            }
        }
    }
}
